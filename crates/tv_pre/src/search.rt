// What the search for the regions of a formula goes by.

ghost use Rattle.std.specs.Prelude.{◌≡◌, ◌≤◌, true, false, IsTrue, IsFalse, IfOk, IfSome};
ghost use Rattle.tv_cases.specs.Systems.{cases_of};
ghost use Rattle.tv_known.specs.Cycles.{IsLastRound};
ghost use Rattle.tv_known.specs.Rounds.{must_end};
ghost use Rattle.tv_region.specs.StepRegions.{HasNoDraws};
ghost use Rattle.tv_pre.specs.Finding.{IsTameFor};
ghost use Rattle.tv_pre.specs.Search.{IsSearch, AreRanks};

use crate::Setting;
use crate::asking::asks_ranks;
use crate::cycle::has_cycle;
use crate::differences::{are_cases_of_differences, is_of_differences};
use crate::ranking::{Ranks, ranks_of};
use std::alloc::AllocError;
use tv_cert::Aim;
use tv_formula::Shape;
use tv_linear::Region;
use tv_rounds::{has_no_draws, must_end};

/// The last round that is made in a program with a cycle.
const LAST_OF_CYCLE: u32 = 8;

/// A setting, with the last round of a fixpoint that is made, what going back over the steps of the program is exact for, its ranks, and
/// what regions may have.
#[derive(Drop)]
pub(crate) struct Search<'a> {
    pub setting: &'a Setting<'a>,
    pub last: u32,
    /// No case has a draw.
    pub plain: bool,
    /// Each case is of differences.
    pub differences: bool,
    /// What is known of its ranks, where they may serve for the formula.
    pub ranks: &'a Option<Ranks>,
    /// Regions have the states alone that the rounds tell of. Elsewhere one may have others too where its formula holds.
    pub alone: bool,
}

/// The last round that is made of each fixpoint: in a program without a cycle one for each location.
fn last_round(setting: &Setting) -> Result<u32, AllocError>
    ensures { IfOk result (λ last. IsLastRound (cases_of setting.now.about.now) 8 last) }
{
    let about = setting.about;
    if has_cycle(setting.alloc, about)? {
        Ok(LAST_OF_CYCLE)
    } else {
        Ok(about.locations())
    }
}

/// The ranks of the program, where they may serve for the formula.
pub(crate) fn ranks_for(setting: &Setting, aim: &Aim) -> Result<Option<Ranks>, AllocError>
    ensures { let about = cases_of setting.now.about.now in
        IfOk result (λ ranks. IfSome ranks (AreRanks about setting.now.budget.now.pivots)) }
{
    if !asks_ranks(aim) {
        return Ok(None);
    }
    let ranks = ranks_of(setting)?;
    Ok(Some(ranks))
}

/// The search of a whole formula, by these ranks.
pub(crate) fn search_in<'a>(
    setting: &'a Setting<'a>,
    ranks: &'a Option<Ranks>,
) -> Result<Search<'a>, AllocError>
    requires splits { setting.now.budget.now.splits ≤ 128 }
    requires ranks { IfSome ranks.now (AreRanks (cases_of setting.now.about.now) setting.now.budget.now.pivots) }
    ensures search { IfOk result IsSearch }
    ensures setting { IfOk result (λ search. search.setting.now ≡ setting.now) }
{
    let last = last_round(setting)?;
    Ok(Search {
        setting,
        last,
        plain: has_no_draws(setting.about),
        differences: are_cases_of_differences(setting.about),
        ranks,
        alone: false,
    })
}

impl<'a> Search<'a> {
    /// The search of the arguments of a fixpoint of this shape from which its region is made whether its rounds settle or not. Those of a
    /// weak until or a release have the states alone that the rounds tell of: whether such rounds settle may change with each state more.
    pub(crate) fn of_arguments(&self, shape: Shape) -> Search<'a>
        requires search { IsSearch self.now }
        ensures search { IsSearch result }
        ensures setting { result.setting.now ≡ self.now.setting.now }
        ensures last { result.last ≡ self.now.last }
        ensures shrinking { must_end shape ≡ false → result.alone ≡ true }
        ensures alone { self.now.alone ≡ true → result.alone ≡ true }
    {
        Search {
            setting: self.setting,
            last: self.last,
            plain: self.plain,
            differences: self.differences,
            ranks: self.ranks,
            alone: self.alone || !must_end(shape),
        }
    }

    /// Whether going back into the regions is exact.
    pub(crate) fn is_tame(&self, first: &Region, second: &Region) -> bool
        requires search { IsSearch self.now }
        ensures tame { IsTrue result → IsTameFor (cases_of self.now.setting.now.about.now) first.now second.now }
        ensures wild { IsFalse result → IsTameFor (cases_of self.now.setting.now.about.now) first.now second.now → ⊥ }
    {
        if self.plain {
            return true;
        }
        if !self.differences {
            return false;
        }
        if !is_of_differences(first) {
            return false;
        }
        is_of_differences(second)
    }
}
