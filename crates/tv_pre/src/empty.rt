// The node without pieces.

ghost use Rattle.std.specs.Prelude.{IfOk};
ghost use Rattle.tv_formula.specs.Properties.{term, negated};
ghost use Rattle.tv_cases.specs.Systems.{cases_of};
ghost use Rattle.tv_rounds.specs.Calls.{IsNowhere};
ghost use Rattle.tv_pre.specs.Parts.{IsPart};

use crate::plain::plain_with;
use crate::regions::nowhere;
use crate::{Part, Setting};
use std::alloc::AllocError;

/// The part of the negation of termination that says nothing: it has no pieces.
pub(crate) fn empty_part(setting: &Setting) -> Result<Part, AllocError>
    ensures nowhere { IfOk result (λ part. IsNowhere (cases_of setting.now.about.now) part.region) }
    ensures part { IfOk result (λ part. IsPart (cases_of setting.now.about.now) (negated term) part.region part.node) }
{
    let alloc = setting.alloc;
    let region = nowhere(setting);
    Ok(plain_with(
        alloc,
        setting.about,
        region,
        Vec::new(alloc),
        Vec::new(alloc),
    )?)
}
