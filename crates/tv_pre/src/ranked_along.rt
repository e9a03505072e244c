// Fixpoints that are to come to an end, where all states are ranked.

ghost use Rattle.std.specs.Prelude.{◌≡◌, ℕ, ◌+◌, ◌≤◌, [], ◌∷◌, true, IsTrue, IsFalse, IfOk};
ghost use Rattle.std.specs.Result.{IfErr};
ghost use Rattle.tv_formula.specs.declared.tree.Path.TheVariants.{Every};
ghost use Rattle.tv_cases.specs.Systems.{cases_of};
ghost use Rattle.tv_known.specs.Rounds.{must_end};
ghost use Rattle.tv_lexrank.specs.Nodes.{IsRankedBy};
ghost use Rattle.tv_region.specs.Regions.{IsRegion};
ghost use Rattle.tv_pre.specs.Along.{arguments, AreAtEnd};
ghost use Rattle.tv_pre.specs.Counted.{IsCountedGoing, IsCountedBetween, IsCountedAlong, IsUntoldCount};
ghost use Rattle.tv_pre.specs.Built.{IsBuiltOf, IsFaultOf};
ghost use Rattle.tv_pre.specs.Fixed.{AreOver};
ghost use Rattle.tv_pre.specs.Parts.{joined_pieces};
ghost use Rattle.tv_pre.specs.RankedAlong.{AreGoing, HasAll, IsRankedAlong, IsUntoldAlong};
ghost use Rattle.tv_pre.specs.Sized.{IsFewEnd, IsFewGoing, IsFewRanked};
ghost use Rattle.tv_pre.specs.Unserved.{SomeIsOutside};

use crate::between::lie_between;
use crate::coming::everywhere;
use crate::ends::hold_of;
use crate::regions::back_into;
use crate::{Part, PreFault, RankedCases, Setting, Sides, ranked_until};
use tv_cert::Node;
use tv_formula::Path;
use tv_linear::Region;
use tv_region::both;

/// What the ranks of a program tell of a fixpoint that is to come to an end.
#[derive(Drop)]
pub(crate) enum RankedAlong {
    /// It holds everywhere: every state is at the end, or on the way with a step.
    Everywhere(Part),
    /// Nothing: some state is neither. The nodes of the arguments and the states at the end are given back.
    Unsettled {
        children: Vec<Node>,
        end: Region,
    },
    /// It was not settled whether some state is neither, for this reason. The same is given back.
    Untold {
        children: Vec<Node>,
        end: Region,
        fault: PreFault,
    },
}

/// The states on the way with a step.
fn going(setting: &Setting, sides: &Sides) -> Result<Region, PreFault>
    requires sides { AreOver (cases_of setting.now.about.now) sides.now }
    ensures going { IfOk result (AreGoing (cases_of setting.now.about.now) sides.now) }
    ensures bounded { IfOk result (IsFewGoing (cases_of setting.now.about.now) sides.now) }
    ensures built { IfOk result (IsBuiltOf (cases_of setting.now.about.now) 1 (arguments sides.now)) }
    ensures refused { IfErr result (IsFaultOf (cases_of setting.now.about.now) setting.now.budget.now 1 (arguments sides.now)) }
    ensures counted { IfErr result (IsCountedGoing (cases_of setting.now.about.now) sides.now) }
{
    let _variables = setting.about.variables();
    let anywhere = everywhere(setting.alloc, setting.about)?;
    let goes = back_into(setting, Path::Any, &anywhere)?;
    Ok(both(setting.alloc, hold_of(sides), &goes, setting.budget)?)
}

/// Whether every state is in one of the two regions. No region is made of them for that: each of all states is covered by their pieces.
fn have_all(setting: &Setting, end: &Region, onward: &Region) -> Result<bool, PreFault>
    requires splits { setting.now.budget.now.splits ≤ 128 }
    requires end { IsRegion (cases_of setting.now.about.now).variables (cases_of setting.now.about.now).locations end.now }
    requires onward { IsRegion (cases_of setting.now.about.now).variables (cases_of setting.now.about.now).locations onward.now }
    ensures all { let about = cases_of setting.now.about.now in
        IfOk result (λ all. IsTrue all → HasAll about (joined_pieces (end.now ∷ onward.now ∷ []))) }
    ensures others { IfOk result (λ all. IsFalse all → SomeIsOutside (cases_of setting.now.about.now) end.now onward.now) }
    ensures refused { IfErr result (IsFaultOf (cases_of setting.now.about.now) setting.now.budget.now 0 (end.now ∷ onward.now ∷ [])) }
    ensures counted { IfErr result (IsCountedBetween (cases_of setting.now.about.now) setting.now.budget.now end.now onward.now) }
{
    let anywhere = everywhere(setting.alloc, setting.about)?;
    Ok(lie_between(setting, &anywhere.pieces, end, onward)?)
}

/// The part of an until or a strong until over every run in a program whose states are all ranked, where every state is at the end, or on
/// the way with a step: as no run goes on for ever, each one comes to the end.
pub(crate) fn ranked_along(
    setting: &Setting,
    sides: &Sides,
    children: Vec<Node>,
    end: Region,
    ranking: &RankedCases,
) -> Result<RankedAlong, PreFault>
    requires splits { setting.now.budget.now.splits ≤ 128 }
    requires path { sides.now.path ≡ Every }
    requires shape { must_end sides.now.shape ≡ true }
    requires sides { AreOver (cases_of setting.now.about.now) sides.now }
    requires end { AreAtEnd (cases_of setting.now.about.now) sides.now end }
    requires end_few { IsFewEnd sides.now end }
    requires built { IsBuiltOf (cases_of setting.now.about.now) 0 (arguments sides.now) end }
    requires ranked { IsRankedBy (cases_of setting.now.about.now) [] ranking.now.node.now ranking.now.shown.now }
    ensures along { IfOk result (IsRankedAlong (cases_of setting.now.about.now) sides.now children.items end) }
    ensures bounded { IfOk result (IsFewRanked (cases_of setting.now.about.now) sides.now) }
    ensures untold { IfOk result (IsUntoldAlong (cases_of setting.now.about.now) setting.now.budget.now sides.now end) }
    ensures untold_count { IfOk result (IsUntoldCount (cases_of setting.now.about.now) setting.now.budget.now sides.now) }
    ensures refused { IfErr result (IsFaultOf (cases_of setting.now.about.now) setting.now.budget.now 2 (end ∷ arguments sides.now)) }
    ensures counted { let about = cases_of setting.now.about.now in
        IfErr result (λ fault. (most : ℕ) → IsCountedAlong about setting.now.budget.now (most + 2) sides.now fault) }
{
    let _variables = setting.about.variables();
    let onward = going(setting, sides)?;
    let all = match have_all(setting, &end, &onward) {
        Err(fault) => return Ok(RankedAlong::Untold {
            children,
            end,
            fault,
        }),
        Ok(all) => all,
    };
    if !all {
        return Ok(RankedAlong::Unsettled { children, end });
    }
    let part = ranked_until(setting, sides, children, end, onward, ranking)?;
    Ok(RankedAlong::Everywhere(part))
}
