// The search from each beginning, one after another.

ghost use Rattle.std.specs.Prelude.{◌≡◌, IfOk, IfSome};
ghost use Rattle.tv_cases.specs.Systems.{cases_of};
ghost use Rattle.tv_cert.specs.Claims.{claim_variables};
ghost use Rattle.tv_shape.specs.Certificates.{IsSettling};

use crate::area::Area;
use crate::budget::{Budget, Spending};
use crate::certifying::attempt_by;
use crate::effect::Steps;
use crate::entered::leave_out_unreached;
use crate::goal::{Goal, goal_of};
use crate::meeting::areas_where;
use crate::partition::Partition;
use crate::passage::passages;
use crate::splitting::settled;
use crate::starting::{Beginning, first_places};
use std::alloc::{AllocError, Global};
use tv_candidates::Candidate;
use tv_cases::Cases;
use tv_cert::{Aim, Claim};
use tv_shape::Certificate;
use tv_sound::accepted;
use tv_walks::{Attempt, MANY_VARIABLES};

/// What is sought.
#[derive(Drop)]
struct Sought<'a> {
    steps: Steps,
    aim: &'a Aim,
    goal: Goal<'a>,
    /// Where runs are before they come to what is asked for.
    areas: Vec<Area>,
    known: &'a [Candidate],
}

/// Each location whole.
fn whole_locations(steps: &Steps) -> Result<Vec<Area>, AllocError> {
    let mut areas = Vec::new(steps.alloc);
    for location in 0..steps.locations {
        let rows = Vec::new(steps.alloc);
        areas.push(Area { location, rows })?;
    }
    Ok(areas)
}

/// Where runs are before they come to the goal; `None` where the search cannot tell.
fn areas_before(
    steps: &Steps,
    goal: Goal,
    spending: &mut Spending,
) -> Result<Option<Vec<Area>>, AllocError> {
    match goal {
        Goal::Ends => Ok(Some(whole_locations(steps)?)),
        Goal::Comes { first: _, second } => areas_where(steps, second, false, spending),
    }
}

impl Sought<'_> {
    /// The places and passages that the search begins with; `None` where there are too many.
    fn first_partition(
        &self,
        beginning: Beginning,
        spending: &mut Spending,
    ) -> Result<Option<Partition>, AllocError> {
        let steps = &self.steps;
        let places = first_places(steps, &self.areas, self.known, beginning, spending)?;
        if places.len() > spending.pieces {
            return Ok(None);
        }
        let Some(left) = passages(steps, &places, spending)? else {
            return Ok(None);
        };
        let mut partition = Partition::new(steps.alloc, places, left);
        leave_out_unreached(steps, &mut partition, 0, spending)?;
        Ok(Some(partition))
    }

    /// What is found from a beginning.
    fn attempt_from(
        &self,
        beginning: Beginning,
        spending: &mut Spending,
    ) -> Result<Option<Attempt>, AllocError> {
        let Some(start) = self.first_partition(beginning, spending)? else {
            return Ok(None);
        };
        match settled(&self.steps, start, spending)? {
            None => Ok(None),
            Some(partition) => attempt_by(&self.steps, self.aim, self.goal, partition, spending),
        }
    }
}

/// What is sought of the claim; `None` where the search is not asked.
fn sought_of<'a>(
    alloc: Global,
    about: &Cases,
    claim: &'a Claim,
    known: &'a [Candidate],
    spending: &mut Spending,
) -> Result<Option<Sought<'a>>, AllocError> {
    let aim = claim.proved_aim();
    let Some(goal) = goal_of(aim) else {
        return Ok(None);
    };
    let steps = Steps::of(alloc, about)?;
    match areas_before(&steps, goal, spending)? {
        None => Ok(None),
        Some(areas) => Ok(Some(Sought {
            steps,
            aim,
            goal,
            areas,
            known,
        })),
    }
}

/// A certificate that every run ends, or comes to where a formula holds that speaks of one state or says that no step is possible, where the
/// search finds one and the checker accepts it. The claim may say so beside constants.
///
/// The known rows are put into its pieces in a second attempt: they are of use where they hold whenever a run is at their location, and do no
/// harm where they do not. Nothing is promised of when there is a certificate. It depends on the program, the rows and the budget alone.
pub fn split_ranks(
    alloc: Global,
    about: &Cases,
    claim: &Claim,
    known: &[Candidate],
    budget: &Budget,
) -> Result<Option<Certificate>, AllocError>
    requires variables { claim_variables claim.now ≡ (cases_of about.now).variables }
    ensures { IfOk result (λ found. IfSome found (IsSettling (cases_of about.now) claim.now)) }
{
    if about.variables() as usize > MANY_VARIABLES {
        return Ok(None);
    }
    let mut spending = Spending::of(budget);
    let Some(sought) = sought_of(alloc, about, claim, known, &mut spending)? else {
        return Ok(None);
    };
    for beginning in [Beginning::Areas, Beginning::Known, Beginning::Cases] {
        if let Beginning::Known = beginning
            && known.is_empty()
        {
            continue;
        }
        if let Some(Attempt { verdict, root }) = sought.attempt_from(beginning, &mut spending)?
            && let Some(certificate) = accepted(alloc, about, claim, verdict, root)?
        {
            return Ok(Some(certificate));
        }
    }
    Ok(None)
}
