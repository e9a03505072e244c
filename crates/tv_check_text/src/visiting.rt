ghost use Rattle.std.specs.Prelude.{◌≡◌, false};
ghost use Rattle.tv_check_text.specs.Settling.{first_failing, ChecksEntry, uncounted};

use crate::checker::Checker;
use crate::proof::proof_is_met;
use tv_cert::{Failing, Kind, Owes, Proof};
use tv_cert_reader::{Context, Cursor, Failure, Taker};

/// The first obligation that is not met, where `failing` is the last that was checked.
pub fn first_failing(earlier: Option<Failing>, met: bool, failing: Failing) -> Option<Failing>
    ensures { result ≡ first_failing earlier met failing }
{
    match earlier {
        Some(_) => earlier,
        None => if met { None } else { Some(failing) },
    }
}

impl Taker for Checker {
    ghost takes = { ChecksEntry };

    ghost room = { uncounted };

    ghost whole = { false };

    fn is_whole(&self) -> bool {
        false
    }

    fn take(
        &mut self,
        context: &Context,
        cursor: &mut Cursor,
        node: u32,
        kind: Kind,
        owes: &Owes,
    ) -> Result<Option<Proof>, Failure> {
        let met = proof_is_met(context, cursor, owes)?;
        let number = self.seen + 1;
        let failing = Failing { number, node, kind };
        self.failing = first_failing(self.failing, met, failing);
        self.seen = number;
        Ok(None)
    }
}
