ghost use Rattle.std.specs.Prelude.{◌≡◌, ◌+◌, ℕ, ◌≤◌, ◌<◌, IsTrue};
ghost use Rattle.std.specs.Bool.{OnTrue, OnFalse};
ghost use Rattle.tv_cases.specs.LinearCases.{CaseSystem};
ghost use Rattle.tv_cases.specs.Systems.{cases_of};
ghost use Rattle.tv_cert.specs.Obligations.{Obligation};
ghost use Rattle.tv_cert.specs.OwesViews.{OwedIn, obligation_by};

use crate::node::Kind;
use crate::owes::Owes;
use tv_cases::Cases;

/// What goes over the obligations of a certificate, in their order.
pub trait Visitor {
    /// An obligation is passed, from one state of the visitor to the next.
    ghost passes: { CaseSystem → Self → Obligation → Self → Type 0 };

    /// An obligation stops the visitor.
    ghost stops: { CaseSystem → Self → Obligation → Self → Type 0 };

    /// How many obligations more it has room for.
    ghost room: { Self → ℕ };

    /// Whether the visitor goes on after this obligation of the node.
    fn visit(&mut self, about: &Cases, node: u32, kind: Kind, owes: &Owes) -> bool
        requires owed { OwedIn (cases_of about.now) owes.now }
        requires room { 0 < room self.old }
        ensures passes { OnTrue result (passes (cases_of about.now) self.old (obligation_by (cases_of about.now) node kind owes.now) self.new) }
        ensures stops { OnFalse result (stops (cases_of about.now) self.old (obligation_by (cases_of about.now) node kind owes.now) self.new) }
        ensures room { room self.old ≤ room self.new + 1 };
}
