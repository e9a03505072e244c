ghost use Rattle.std.specs.Prelude.{◌≡◌};
ghost use Rattle.tv_sound.specs.Following.{offered};
ghost use Rattle.tv_trace.specs.Steps.{IsOffered, Offers};

use tv_cert::{Marked, Proof};

/// The proof of the piece at place `k` among those at the location.
pub(crate) fn proof_at<'a>(
    pieces: &[Marked],
    proofs: &'a [Proof],
    location: u32,
    k: u32,
) -> &'a Proof
    requires { IsOffered (offered pieces.now proofs.now) location k }
    ensures { Offers (offered pieces.now proofs.now) location k result.now }
{
    let mut left = k;
    for i in 0..pieces.len() {
        if pieces[i].location() == location {
            if left == 0 {
                return &proofs[i];
            }
            left -= 1;
        }
    }
    unreachable!()
}
