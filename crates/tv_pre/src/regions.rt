// Regions made of those of the arguments of a formula.

ghost use Rattle.std.specs.Prelude.{◌≡◌, ◌≤◌, ℕ, [], ◌∷◌, sum, All, IfOk};
ghost use Rattle.tv_program.specs.Steps.{State};
ghost use Rattle.std.specs.Result.{IfErr};
ghost use Rattle.tv_cases.specs.Systems.{cases_of};
ghost use Rattle.tv_known.specs.Cycles.{IsStateOf};
ghost use Rattle.tv_known.specs.Sizes.{product};
ghost use Rattle.tv_region.specs.Regions.{IsRegion, count_at};
ghost use Rattle.tv_region.specs.StepRegions.{InState};
ghost use Rattle.tv_rounds.specs.Calls.{IsNowhere};
ghost use Rattle.tv_pre.specs.Pieces.{InPieces};
ghost use Rattle.tv_pre.specs.Inclusions.{OfPieces};
ghost use Rattle.tv_pre.specs.Parts.{joined_pieces};
ghost use Rattle.tv_pre.specs.Fixed.{AreOver};
ghost use Rattle.tv_pre.specs.Built.{IsBuiltOf, IsFaultOf};
ghost use Rattle.tv_pre.specs.Sized.{IsFewBefore, IsFewEnd, counts_at};
ghost use Rattle.tv_pre.specs.Counted.{IsWithin, IsCountedBefore, IsCountedEnd, some_counts_at};
ghost use Rattle.tv_pre.specs.Along.{arguments, AreBefore, OthersLeadOut, AreAtEnd};

use crate::coming::everywhere;
use crate::ends::has_two_ends;
use crate::{PreFault, Setting, Sides};
use tv_formula::Path;
use tv_linear::Region;
use tv_region::{before_any, before_every, both, either};

/// No states.
pub(crate) fn nowhere(setting: &Setting) -> Region
    ensures { IsNowhere (cases_of setting.now.about.now) result }
{
    Region {
        variables: setting.about.variables(),
        locations: setting.about.locations(),
        pieces: Vec::new(setting.alloc),
    }
}

/// The states that each of the regions has.
pub(crate) fn intersection(setting: &Setting, regions: &[Region]) -> Result<Region, PreFault>
    requires regions { All (IsRegion (cases_of setting.now.about.now).variables (cases_of setting.now.about.now).locations) regions.now }
    ensures over { let about = cases_of setting.now.about.now in IfOk result (IsRegion about.variables about.locations) }
    ensures inside { let about = cases_of setting.now.about.now in
        IfOk result (λ r. All (λ x. OfPieces about r.pieces.items (InState x)) regions.now) }
    ensures all { let about = cases_of setting.now.about.now in
        IfOk result (λ r. (s : State) → IsStateOf about s → All (λ x. InState x s) regions.now → InState r s) }
    ensures bounded { IfOk result (λ r. (l : ℕ) → count_at l r ≤ product (counts_at l regions.now)) }
    ensures built { IfOk result (IsBuiltOf (cases_of setting.now.about.now) 0 regions.now) }
    ensures refused { IfErr result (IsFaultOf (cases_of setting.now.about.now) setting.now.budget.now 0 regions.now) }
    ensures counted { IfErr result (IsWithin (λ l. product (some_counts_at l regions.now))) }
{
    let _variables = setting.about.variables();
    let mut common = everywhere(setting.alloc, setting.about)?;
    'regions: for region in regions {
        common = both(setting.alloc, &common, region, setting.budget)?;
    }
    Ok(common)
}

/// The states that one of the regions has.
pub(crate) fn union(setting: &Setting, regions: &[Region]) -> Result<Region, PreFault>
    requires regions { All (IsRegion (cases_of setting.now.about.now).variables (cases_of setting.now.about.now).locations) regions.now }
    ensures over { let about = cases_of setting.now.about.now in IfOk result (IsRegion about.variables about.locations) }
    ensures inside { let about = cases_of setting.now.about.now in
        IfOk result (λ r. OfPieces about r.pieces.items (InPieces (joined_pieces regions.now))) }
    ensures all { let about = cases_of setting.now.about.now in
        IfOk result (λ r. All (λ x. OfPieces about x.pieces.items (InState r)) regions.now) }
    ensures bounded { IfOk result (λ r. (l : ℕ) → count_at l r ≤ sum (counts_at l regions.now)) }
    ensures built { IfOk result (IsBuiltOf (cases_of setting.now.about.now) 0 regions.now) }
    ensures refused { IfErr result (IsFaultOf (cases_of setting.now.about.now) setting.now.budget.now 0 regions.now) }
    ensures counted { IfErr result (IsWithin (λ l. sum (counts_at l regions.now))) }
{
    let _variables = setting.about.variables();
    let mut whole = nowhere(setting);
    'regions: for region in regions {
        whole = either(setting.alloc, &whole, region, setting.budget)?;
    }
    Ok(whole)
}

/// The states all of whose steps lead into the region, or with some step into it.
pub(crate) fn back_into(setting: &Setting, path: Path, region: &Region) -> Result<Region, PreFault>
    requires over { IsRegion (cases_of setting.now.about.now).variables (cases_of setting.now.about.now).locations region.now }
    ensures before { IfOk result (AreBefore (cases_of setting.now.about.now) path region.now) }
    ensures others { IfOk result (OthersLeadOut (cases_of setting.now.about.now) path region.now) }
    ensures bounded { IfOk result (IsFewBefore (cases_of setting.now.about.now) path region.now) }
    ensures built { IfOk result (IsBuiltOf (cases_of setting.now.about.now) 1 (region.now ∷ [])) }
    ensures refused { IfErr result (IsFaultOf (cases_of setting.now.about.now) setting.now.budget.now 1 (region.now ∷ [])) }
    ensures counted { IfErr result (IsCountedBefore (cases_of setting.now.about.now) path region.now) }
{
    match path {
        Path::Every => { Ok(before_every(setting.alloc, setting.about, region, setting.budget)?) }
        Path::Any => { Ok(before_any(setting.alloc, setting.about, region, setting.budget)?) }
    }
}

/// The states where the arguments hold that are to hold at the end.
pub(crate) fn end_of(setting: &Setting, sides: &Sides) -> Result<Region, PreFault>
    requires sides { AreOver (cases_of setting.now.about.now) sides.now }
    ensures end { IfOk result (AreAtEnd (cases_of setting.now.about.now) sides.now) }
    ensures bounded { IfOk result (IsFewEnd sides.now) }
    ensures built { IfOk result (IsBuiltOf (cases_of setting.now.about.now) 0 (arguments sides.now)) }
    ensures refused { IfErr result (IsFaultOf (cases_of setting.now.about.now) setting.now.budget.now 0 (arguments sides.now)) }
    ensures counted { IfErr result (IsCountedEnd sides.now) }
{
    let _variables = setting.about.variables();
    let alloc = setting.alloc;
    if has_two_ends(sides.shape) {
        Ok(both(alloc, sides.first, sides.second, setting.budget)?)
    } else {
        Ok(either(alloc, sides.second, &nowhere(setting), setting.budget)?)
    }
}
