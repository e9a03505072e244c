// Whether going back over steps is exact.

ghost use Rattle.std.specs.Prelude.{◌≡◌, ◌↔◌, IsTrue};
ghost use Rattle.tv_cases.specs.LinearCases.{LinearCase};
ghost use Rattle.tv_cases.specs.Systems.{cases_of};
ghost use Rattle.tv_cases.specs.Views.{case_views};
ghost use Rattle.tv_region.specs.Met.{Has};
ghost use Rattle.tv_region.specs.StepRegions.{HasNoDraws};

use tv_cases::{Case, Cases};

/// Whether none of the cases has a draw.
fn are_plain(cases: &[Case]) -> bool
    ensures { IsTrue result ↔ ((c : LinearCase) → Has (case_views cases.now) c → c.draws ≡ 0) }
{
    'cases: for case in cases {
        if case.draws > 0 {
            return false;
        }
    }
    true
}

/// Whether no case has a draw. Then going back is exact, whatever the sides of a fixpoint.
pub fn has_no_draws(about: &Cases) -> bool
    ensures { IsTrue result ↔ HasNoDraws (cases_of about.now) }
{
    are_plain(about.list())
}
