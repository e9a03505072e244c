ghost use Rattle.std.specs.Prelude.{◌≡◌, ◌+◌, ◌-◌, Some, drop};
ghost use Rattle.tv_cert.specs.Obligations.{OwedMet};
ghost use Rattle.tv_check.specs.Settling.{first_proof};

use crate::obligations::is_met;
use tv_cases::Cases;
use tv_cert::{Failing, Kind, Owes, Proof, Visitor};

/// What settles obligations by the proofs of a node, one after another.
#[derive(Drop)]
pub struct Settler<'a> {
    /// How many obligations of the certificate were met so far.
    pub seen: u64,
    pub proofs: &'a [Proof],
    /// The obligation that is not met.
    pub failing: Option<Failing>,
}

/// The proofs after the first.
fn rest_of(proofs: &[Proof]) -> &[Proof]
    ensures { result.now ≡ drop 1 proofs.now }
{
    match proofs {
        [] => proofs,
        [_, rest @ ..] => rest,
    }
}

impl Visitor for Settler<'_> {
    ghost passes = { λ system v o w. OwedMet o.owed (first_proof v.proofs.now)
        × (w.proofs.now ≡ drop 1 v.proofs.now) × (w.seen ≡ v.seen + 1) };

    ghost stops = { λ system v o w. (¬ (OwedMet o.owed (first_proof v.proofs.now)))
        × (w.failing ≡ Some (record { number = v.seen + 1; node = o.node; kind = o.kind })) };

    ghost room = { λ v. 18446744073709551615 - v.seen };

    fn visit(&mut self, about: &Cases, node: u32, kind: Kind, owes: &Owes) -> bool {
        let number = self.seen + 1;
        if is_met(about, owes, self.proofs) {
            self.proofs = rest_of(self.proofs);
            self.seen = number;
            true
        } else {
            self.failing = Some(Failing { number, node, kind });
            false
        }
    }
}
