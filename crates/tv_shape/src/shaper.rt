ghost use Rattle.std.specs.Prelude.{◌≡◌, ◌^◌, drop};
ghost use Rattle.tv_shape.specs.Offered.{FirstShape};

use crate::offered::first_has_shape;
use tv_cases::Cases;
use tv_cert::{Kind, Owes, Proof, Visitor};

/// What takes the proofs of a node, one for each obligation, as long as they have the shape that is owed.
#[derive(Drop)]
pub struct Shaper<'a> {
    pub proofs: &'a [Proof],
}

/// The proofs after the first.
fn rest_of(proofs: &[Proof]) -> &[Proof]
    ensures { result.now ≡ drop 1 proofs.now }
{
    match proofs {
        [] => proofs,
        [_, rest @ ..] => rest,
    }
}

impl Visitor for Shaper<'_> {
    ghost passes = { λ system v o w. FirstShape o.owed v.proofs.now × (w.proofs.now ≡ drop 1 v.proofs.now) };

    ghost stops = { λ system v o w. ¬ (FirstShape o.owed v.proofs.now) };

    ghost room = { λ v. 2 ^ 200 };

    fn visit(&mut self, about: &Cases, node: u32, kind: Kind, owes: &Owes) -> bool {
        if first_has_shape(about, owes, self.proofs) {
            self.proofs = rest_of(self.proofs);
            true
        } else {
            false
        }
    }
}
