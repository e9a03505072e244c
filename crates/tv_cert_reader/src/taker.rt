ghost use Rattle.std.specs.Prelude.{◌≡◌, ◌+◌, ◌≤◌, ◌<◌, ℕ, Bool};
ghost use Rattle.tv_cases.specs.Systems.{cases_of};
ghost use Rattle.tv_cert.specs.Obligations.{Entry};
ghost use Rattle.tv_cert.specs.OwesViews.{OwedIn, obligation_by};
ghost use Rattle.tv_cert_reader.specs.Visits.{TakesProof};

use crate::context::Context;
use crate::cursor::Cursor;
use crate::failure::Failure;
use tv_cert::{Kind, Owes, Proof};

/// What is done with the proofs of nodes while their lines are read.
pub trait Taker {
    /// From one state to the next over an obligation with its proof.
    ghost takes: { Self → Entry → Self → Type 0 };

    /// How many obligations more it has room for.
    ghost room: { Self → ℕ };

    /// Whether nodes are kept whole.
    ghost whole: { Bool };

    /// Whether nodes are kept whole; else their pieces are kept alone.
    fn is_whole(&self) -> bool
        ensures { result ≡ whole };

    /// Reads a proof of what the node with this number owes. It comes back where nodes are kept whole.
    fn take(
        &mut self,
        context: &Context,
        cursor: &mut Cursor,
        node: u32,
        kind: Kind,
        owes: &Owes,
    ) -> Result<Option<Proof>, Failure>
        requires owed { OwedIn (cases_of context.now.about.now) owes.now }
        requires room { 0 < room self.old }
        ensures taken { let o = obligation_by (cases_of context.now.about.now) node kind owes.now in
            TakesProof takes whole o self.old self.new cursor.old cursor.new result }
        ensures room { room self.old ≤ room self.new + 1 };
}
