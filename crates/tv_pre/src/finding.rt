// The region and the node of each subformula, from those of its arguments.

ghost use Rattle.std.specs.Prelude.{◌≡◌, ◌≤◌, ◌+◌, ◌++◌, ◌∷◌, ℕ, suc, None, List, [], map, Bool, true, false, IfOk, IfSome};
ghost use Rattle.std.specs.List.{AllZip};
ghost use Rattle.std.specs.Result.{IfErr};
ghost use Rattle.tv_formula.specs.Properties.{Property};
ghost use Rattle.tv_cases.specs.LinearCases.{CaseSystem};
ghost use Rattle.tv_cases.specs.Systems.{cases_of};
ghost use Rattle.tv_known.specs.Cycles.{IsLastRound};
ghost use Rattle.tv_known.specs.Rounds.{must_end, FixRound};
ghost use Rattle.tv_cert.specs.AimViews.{aim_states, aims_state, statements_of};
ghost use Rattle.tv_cert.specs.Statements.{Statement};
ghost use Rattle.tv_cert.specs.Statements as statements;
ghost use Rattle.tv_region.specs.Regions.{IsRegion};
ghost use Rattle.tv_region.specs.StepRegions.{InState, IsTame};
ghost use Rattle.tv_rounds.specs.Answers.{Differ};
ghost use Rattle.tv_pre.specs.declared.fault.PreFault.TheVariants.{Memory};
ghost use Rattle.tv_pre.specs.Atoms.{IsEvenTest};
ghost use Rattle.tv_pre.specs.Built.{IsBuilt};
ghost use Rattle.tv_pre.specs.Finding.{States, IsEvenStatement, AreEvenStatements, steps_back, size, first_of, gap_behind, IsGapOf, IsGapFor, IsWildStep, IsPartFor, IsFullFor, IsExactFor, HasNoGapIfPlain, IsTameStatement, IsFound, test_statement, IsRefusedFor};
ghost use Rattle.tv_pre.specs.Sized.{IsFewFor};
ghost use Rattle.tv_pre.specs.Counted.{IsCountedFor, AreCountedFor};
ghost use Rattle.tv_pre.specs.Search.{system_of, IsSearch};
ghost use Rattle.tv_pre.specs.Arguments.{AreArguments, AreArgumentsOf};
ghost use Rattle.tv_pre.specs.KnownStates.{IsAloneIn, IsKnownFor, HasKnownStates, AreKnownFor};

use crate::along::{Along, part_along};
use crate::copying::{found_alike, found_before};
use crate::gap::{added, first_gap, gap_after};
use crate::regions::{back_into, intersection, union};
use crate::search::{Search, ranks_for, search_in};
use crate::termination::{ends_found, never_found};
use crate::{Found, Gap, Part, PreFault, Setting, Sides, Test, atom, each_of, next, one_of};
use std::alloc::Global;
use tv_cert::{Aim, Node};
use tv_formula::{Path, Shape};
use tv_linear::{Region, push_item};
use tv_rounds::must_end;

/// What was found of the arguments of a formula, in order: their regions and nodes, the first gap, and how many subformulas they have.
#[derive(Drop)]
pub(crate) struct Arguments {
    pub regions: Vec<Region>,
    pub nodes: Vec<Node>,
    pub gap: Option<Gap>,
    pub size: u32,
}

/// No arguments.
fn no_arguments(alloc: Global) -> Arguments
    ensures regions { result.regions.items ≡ [] }
    ensures nodes { result.nodes.items ≡ [] }
    ensures size { result.size ≡ 0 }
    ensures gap { result.gap ≡ None }
{
    Arguments {
        regions: Vec::new(alloc),
        nodes: Vec::new(alloc),
        gap: None,
        size: 0,
    }
}

/// The arguments with one more. Of its gap the place counts on from the formula that they are arguments of.
fn with_argument(arguments: Arguments, found: Found) -> Result<Arguments, PreFault>
    ensures regions { IfOk result (λ a. a.regions.items ≡ arguments.regions.items ++ found.part.region ∷ []) }
    ensures nodes { IfOk result (λ a. a.nodes.items ≡ arguments.nodes.items ++ found.part.node ∷ []) }
    ensures size { IfOk result (λ a. a.size ≡ arguments.size + found.size) }
    ensures gap { IfOk result (λ a. a.gap ≡ first_of arguments.gap (gap_behind (1 + arguments.size) found.gap)) }
    ensures memory { IfErr result (λ fault. fault ≡ Memory) }
{
    let Arguments {
        mut regions,
        mut nodes,
        gap,
        size,
    } = arguments;
    let place = added(1, size)?;
    let more = gap_after(place, found.gap)?;
    let size = added(size, found.size)?;
    let Part { region, node } = found.part;
    push_item(&mut regions, region)?;
    push_item(&mut nodes, node)?;
    let gap = first_gap(gap, more);
    Ok(Arguments {
        regions,
        nodes,
        gap,
        size,
    })
}

/// What was found of the arguments of a formula, from what was found of each.
fn arguments_of(alloc: Global, founds: Vec<Found>) -> Result<Arguments, PreFault>
    ensures arguments { IfOk result (λ a. (about : CaseSystem) → (last : ℕ) → (ss : List Statement) →
        AllZip (IsFound about last) ss founds.items → AreArguments about last ss a) }
    ensures regions { IfOk result (λ a. a.regions.items ≡ map (λ found. found.part.region) founds.items) }
    ensures memory { IfErr result (λ fault. fault ≡ Memory) }
{
    let mut arguments = no_arguments(alloc);
    'founds: for found in founds {
        arguments = with_argument(arguments, found)?;
    }
    Ok(arguments)
}

/// What is found of an atom.
fn atom_found(search: &Search, test: &Test) -> Result<Found, PreFault>
    requires even { IsEvenTest (system_of search.now).variables test.now }
    ensures found { IfOk result (IsFound (system_of search.now) search.now.last (test_statement test.now)) }
    ensures known { let about = system_of search.now in
        IfOk result (HasKnownStates about search.now.last search.now.alone (test_statement test.now)) }
    ensures memory { IfErr result (λ fault. fault ≡ Memory) }
{
    let part = atom(search.setting.alloc, search.setting.about, test)?;
    let gap = None;
    Ok(Found { part, gap, size: 1 })
}

/// What is found of a conjunction.
fn each_found(search: &Search, arguments: Arguments) -> Result<Found, PreFault>
    requires search { IsSearch search.now }
    requires arguments { AreArgumentsOf (system_of search.now) arguments }
    ensures found { let about = system_of search.now in
        IfOk result (λ found. (ss : List Statement) → AreArguments about search.now.last ss arguments →
        IsFound about search.now.last (statements.each_of (statements_of ss)) found) }
    ensures known { let about = system_of search.now in
        IfOk result (λ found. (ss : List Statement) → AreKnownFor about search.now.last search.now.alone ss arguments.regions.items →
        HasKnownStates about search.now.last search.now.alone (statements.each_of (statements_of ss)) found) }
    ensures refused { let about = system_of search.now in
        IfErr result (λ fault. (ss : List Statement) → AreArguments about search.now.last ss arguments →
        IsRefusedFor about search.now.setting.now.budget.now search.now.last (statements.each_of (statements_of ss)) fault) }
    ensures counted { let about = system_of search.now in
        IfErr result (λ fault. (ss : List Statement) → AreArguments about search.now.last ss arguments →
        IsCountedFor about search.now.setting.now.budget.now search.now.last (statements.each_of (statements_of ss)) fault) }
{
    let Arguments {
        regions,
        nodes,
        gap,
        size,
    } = arguments;
    let size = added(1, size)?;
    let region = intersection(search.setting, &regions)?;
    let part = each_of(search.setting, &regions, nodes, region)?;
    Ok(Found { part, gap, size })
}

/// What is found of a disjunction.
fn some_found(search: &Search, arguments: Arguments) -> Result<Found, PreFault>
    requires search { IsSearch search.now }
    requires arguments { AreArgumentsOf (system_of search.now) arguments }
    ensures found { let about = system_of search.now in
        IfOk result (λ found. (ss : List Statement) → AreArguments about search.now.last ss arguments →
        IsFound about search.now.last (statements.one_of (statements_of ss)) found) }
    ensures known { let about = system_of search.now in
        IfOk result (λ found. (ss : List Statement) → AreKnownFor about search.now.last search.now.alone ss arguments.regions.items →
        HasKnownStates about search.now.last search.now.alone (statements.one_of (statements_of ss)) found) }
    ensures refused { let about = system_of search.now in
        IfErr result (λ fault. (ss : List Statement) → AreArguments about search.now.last ss arguments →
        IsRefusedFor about search.now.setting.now.budget.now search.now.last (statements.one_of (statements_of ss)) fault) }
    ensures counted { let about = system_of search.now in
        IfErr result (λ fault. (ss : List Statement) → AreArguments about search.now.last ss arguments →
        IsCountedFor about search.now.setting.now.budget.now search.now.last (statements.one_of (statements_of ss)) fault) }
{
    let Arguments {
        regions,
        nodes,
        gap,
        size,
    } = arguments;
    let size = added(1, size)?;
    let region = union(search.setting, &regions)?;
    let part = one_of(search.setting, &regions, nodes, region)?;
    Ok(Found { part, gap, size })
}

/// Why the region of the states before another one may lack states, if that one lacks none: going back into it may not be exact.
fn gap_before(search: &Search, into: &Region) -> Option<Gap>
    requires search { IsSearch search.now }
    ensures none { result ≡ None → IsTame (system_of search.now) into.now }
    ensures some { IfSome result (IsWildStep (system_of search.now) into.now) }
{
    if search.is_tame(into, into) {
        None
    } else {
        Some(Gap::Inexact)
    }
}

/// What is found of a formula on the next states.
fn after_found(search: &Search, path: Path, child: Found) -> Result<Found, PreFault>
    requires search { IsSearch search.now }
    requires over { let about = system_of search.now in IsRegion about.variables about.locations child.part.region }
    ensures found { let about = system_of search.now in
        IfOk result (λ found. (s : Statement) → IsFound about search.now.last s child →
        IsFound about search.now.last (statements.after path s) found) }
    ensures known { let about = system_of search.now in
        IfOk result (λ found. (s : Statement) → IsFound about search.now.last s child →
        HasKnownStates about search.now.last search.now.alone s child →
        HasKnownStates about search.now.last search.now.alone (statements.after path s) found) }
    ensures refused { let about = system_of search.now in
        IfErr result (λ fault. (s : Statement) → IsFound about search.now.last s child →
        IsRefusedFor about search.now.setting.now.budget.now search.now.last (statements.after path s) fault) }
    ensures counted { let about = system_of search.now in
        IfErr result (λ fault. (s : Statement) → IsFound about search.now.last s child →
        IsCountedFor about search.now.setting.now.budget.now search.now.last (statements.after path s) fault) }
{
    // From this call it is known that the cases are proper.
    let _variables = search.setting.about.variables();
    let size = added(1, child.size)?;
    let Part { region: into, node } = child.part;
    let inner = gap_after(1, child.gap)?;
    let gap = first_gap(inner, gap_before(search, &into));
    let region = back_into(search.setting, path, &into)?;
    let mut children = Vec::new(search.setting.alloc);
    push_item(&mut children, node)?;
    let part = next(search.setting, path, &into, children, region)?;
    Ok(Found { part, gap, size })
}

/// What is found of a fixpoint, and whether its own rounds leave no gap, whatever gaps its arguments have.
#[derive(Drop)]
pub(crate) struct FoundAlong {
    pub found: Found,
    pub settled: bool,
}

/// What is found of a fixpoint.
fn along_found(
    search: &Search,
    path: Path,
    shape: Shape,
    first: Found,
    second: Found,
) -> Result<FoundAlong, PreFault>
    requires search { IsSearch search.now }
    requires first { let about = system_of search.now in IsRegion about.variables about.locations first.part.region }
    requires second { let about = system_of search.now in IsRegion about.variables about.locations second.part.region }
    ensures found { let about = system_of search.now in
        IfOk result (λ along. (s t : Statement) → IsFound about search.now.last s first → IsFound about search.now.last t second →
        IsFound about search.now.last (statements.along path shape s t) along.found) }
    ensures known { let about = system_of search.now in
        IfOk result (λ along. (inner : Bool) → IsAloneIn search.now.alone shape inner →
        (s t : Statement) → IsFound about search.now.last s first → IsFound about search.now.last t second →
        HasKnownStates about search.now.last inner s first → HasKnownStates about search.now.last inner t second →
        HasKnownStates about search.now.last search.now.alone (statements.along path shape s t) along.found) }
    ensures settled { let about = system_of search.now in
        IfOk result (λ along. search.now.alone ≡ false → must_end shape ≡ false → along.settled ≡ true → (s t : Statement) →
        HasKnownStates about search.now.last search.now.alone s first → HasKnownStates about search.now.last search.now.alone t second →
        HasKnownStates about search.now.last search.now.alone (statements.along path shape s t) along.found) }
    ensures unsettled { let about = system_of search.now in
        let round = FixRound about path shape (InState first.part.region) (InState second.part.region) in
        IfOk result (λ along. along.settled ≡ false → (s t : Statement) → IsFound about search.now.last s first →
        IsFound about search.now.last t second → IsTameStatement about (statements.along path shape s t) →
        Differ about (round search.now.last) (round (suc search.now.last))) }
    ensures refused { let about = system_of search.now in
        IfErr result (λ fault. (s t : Statement) → IsFound about search.now.last s first → IsFound about search.now.last t second →
        IsRefusedFor about search.now.setting.now.budget.now search.now.last (statements.along path shape s t) fault) }
    ensures counted { let about = system_of search.now in
        IfErr result (λ fault. (s t : Statement) → IsFound about search.now.last s first → IsFound about search.now.last t second →
        IsCountedFor about search.now.setting.now.budget.now search.now.last (statements.along path shape s t) fault) }
{
    // From this call it is known that the cases are proper.
    let _variables = search.setting.about.variables();
    let size = added(1, added(first.size, second.size)?)?;
    let left = gap_after(1, first.gap)?;
    let right = gap_after(added(1, first.size)?, second.gap)?;
    let Part {
        region: one,
        node: front,
    } = first.part;
    let Part {
        region: other,
        node: back,
    } = second.part;
    let mut children = Vec::new(search.setting.alloc);
    push_item(&mut children, front)?;
    push_item(&mut children, back)?;
    let sides = Sides {
        path,
        shape,
        first: &one,
        second: &other,
    };
    let Along { part, gap } = part_along(search, &sides, children)?;
    let settled = gap.is_none();
    let gap = first_gap(first_gap(left, right), gap);
    let found = Found { part, gap, size };
    Ok(FoundAlong { found, settled })
}

/// What is found of each of some formulas. Of one that is equal to an earlier one it is a copy.
#[cycle(finding)]
fn all_found(search: &Search, aims: &[Aim]) -> Result<Arguments, PreFault>
    requires search { IsSearch search.now }
    requires even { AreEvenStatements (system_of search.now).variables (aims_state aims.now) }
    ensures found { IfOk result (AreArguments (system_of search.now) search.now.last (map aim_states aims.now)) }
    ensures known { let about = system_of search.now in
        IfOk result (λ a. AreKnownFor about search.now.last search.now.alone (map aim_states aims.now) a.regions.items) }
    ensures refused_each { let about = system_of search.now in
        let s = statements.each_of (aims_state aims.now) in
        IfErr result (IsRefusedFor about search.now.setting.now.budget.now search.now.last s) }
    ensures refused_one { let about = system_of search.now in
        let s = statements.one_of (aims_state aims.now) in
        IfErr result (IsRefusedFor about search.now.setting.now.budget.now search.now.last s) }
    ensures counted { let about = system_of search.now in
        IfErr result (AreCountedFor about search.now.setting.now.budget.now search.now.last (aims_state aims.now)) }
{
    let mut founds = Vec::new(search.setting.alloc);
    'aims: for aim in aims {
        if let Some(again) = found_before(search, aims, &founds, aim)? {
            push_item(&mut founds, again)?;
            continue 'aims;
        }
        let found = found_of(search, aim)?;
        push_item(&mut founds, found)?;
    }
    arguments_of(search.setting.alloc, founds)
}

/// What is found of a formula after an earlier one. If they are equal it is a copy of what was found of that one.
#[cycle(finding)]
fn found_next(search: &Search, aim: &Aim, earlier: &Aim, before: &Found) -> Result<Found, PreFault>
    requires search { IsSearch search.now }
    requires even { IsEvenStatement (system_of search.now).variables (aim_states aim.now) }
    requires before { IsFound (system_of search.now) search.now.last (aim_states earlier.now) before.now }
    requires known { HasKnownStates (system_of search.now) search.now.last search.now.alone (aim_states earlier.now) before.now }
    ensures found { IfOk result (IsFound (system_of search.now) search.now.last (aim_states aim.now)) }
    ensures known { IfOk result (HasKnownStates (system_of search.now) search.now.last search.now.alone (aim_states aim.now)) }
    ensures refused { let about = system_of search.now in
        IfErr result (IsRefusedFor about search.now.setting.now.budget.now search.now.last (aim_states aim.now)) }
    ensures counted { let about = system_of search.now in
        IfErr result (IsCountedFor about search.now.setting.now.budget.now search.now.last (aim_states aim.now)) }
{
    match found_alike(search, earlier, before, aim)? {
        Some(again) => Ok(again),
        None => found_of(search, aim),
    }
}

/// What is found of a formula.
#[cycle(finding)]
fn found_of(search: &Search, aim: &Aim) -> Result<Found, PreFault>
    requires search { IsSearch search.now }
    requires even { IsEvenStatement (system_of search.now).variables (aim_states aim.now) }
    ensures found { IfOk result (IsFound (system_of search.now) search.now.last (aim_states aim.now)) }
    ensures known { IfOk result (HasKnownStates (system_of search.now) search.now.last search.now.alone (aim_states aim.now)) }
    ensures refused { let about = system_of search.now in
        IfErr result (IsRefusedFor about search.now.setting.now.budget.now search.now.last (aim_states aim.now)) }
    ensures counted { let about = system_of search.now in
        IfErr result (IsCountedFor about search.now.setting.now.budget.now search.now.last (aim_states aim.now)) }
{
    match aim {
        Aim::Rows(lists) => atom_found(search, &Test::Rows(lists)),
        Aim::Here(location) => atom_found(search, &Test::Here(*location)),
        Aim::Elsewhere(location) => atom_found(search, &Test::Elsewhere(*location)),
        Aim::Ends => ends_found(search),
        Aim::NeverEnds => never_found(search),
        Aim::EachOf(aims) => {
            let arguments = all_found(search, aims)?;
            each_found(search, arguments)
        }
        Aim::OneOf(aims) => {
            let arguments = all_found(search, aims)?;
            some_found(search, arguments)
        }
        Aim::After(path, inner) => {
            let child = found_of(search, inner)?;
            after_found(search, *path, child)
        }
        Aim::Along(path, shape, first, second) => {
            if !search.alone && !must_end(*shape) {
                let front = found_of(search, first)?;
                let back = found_next(search, second, first, &front)?;
                let wider = along_found(search, *path, *shape, front, back)?;
                if wider.settled {
                    return Ok(wider.found);
                }
            }
            let inner = search.of_arguments(*shape);
            let front = found_of(&inner, first)?;
            let back = found_next(&inner, second, first, &front)?;
            let along = along_found(search, *path, *shape, front, back)?;
            Ok(along.found)
        }
    }
}

/// The region where a formula is known to hold, with the node that shows it, each made from those of its arguments. Of equal arguments the
/// first is searched for, and the others are copies.
///
/// The region of an atom has its rows at each location; conjunctions and disjunctions have the states that each argument has, or one of
/// them. A formula on the next states has those all of whose steps lead into the region of its argument, or some step. A fixpoint has the
/// states at its end, and, where going back over the steps is exact, those of its rounds: up to the eighth in a program with a cycle, and
/// else up to as many as it has locations. Termination is the fixpoint over every run that comes to a state without a step, and its
/// negation the one over some run where each state has a step. A `gap` says why the region may lack states: the program is not tame for
/// the formula; or, if each comparison has rows, the subformula that it names is a fixpoint, or termination or its negation, that the last
/// round does not settle. Where there is none, and each comparison has rows, the region has exactly the states where the formula holds, and
/// at each other one its negation does.
///
/// Where the program is tame for the formula, and each comparison has rows, the region has all states that the rounds up to the last tell
/// of, whether they settle or not. A weak until or a release whose last round is open has the states at its end besides. Inside of an
/// argument of a weak until or a release it has them where the rounds of that one settle with all that the arguments have. Where these are
/// open, the arguments are searched for again with the states alone that the rounds tell of: whether rounds settle may change with each
/// state more.
///
/// Where the whole program has a lexicographic ranking, termination holds everywhere, and so does a fixpoint over every run that must
/// come to an end if each state is at its end, or on the way with a step. Where a system of the search for the ranking is refused, and the
/// rounds of such a fixpoint, or of termination or its negation, leave a gap, the refusal is given in place of the gap.
///
/// Any other refusal is of a call on regions, or of a question about their pieces, that are made of the atoms of the formula.
pub fn found(setting: &Setting, aim: &Aim) -> Result<Found, PreFault>
    requires splits { setting.now.budget.now.splits ≤ 128 }
    requires stated { (f : Property) × States (cases_of setting.now.about.now) (aim_states aim.now) f }
    ensures region { let system = cases_of setting.now.about.now in
        IfOk result (λ found. IsRegion system.variables system.locations found.part.region) }
    ensures part { let system = cases_of setting.now.about.now in
        IfOk result (λ found. IsPartFor system (aim_states aim.now) found.part.region found.part.node) }
    ensures built { let system = cases_of setting.now.about.now in
        let s = aim_states aim.now in
        IfOk result (λ found. (last : ℕ) → IsLastRound system 8 last → IsBuilt system s (steps_back last s) found.part.region) }
    ensures size { IfOk result (λ found. found.size ≡ size (aim_states aim.now)) }
    ensures gap { IfOk result (λ found. IfSome found.gap (IsGapOf (cases_of setting.now.about.now))) }
    ensures tells { let system = cases_of setting.now.about.now in
        IfOk result (λ found. (last : ℕ) → IsLastRound system 8 last → IfSome found.gap (IsGapFor system last (aim_states aim.now))) }
    ensures full { let system = cases_of setting.now.about.now in
        IfOk result (λ found. found.gap ≡ None → IsFullFor system (aim_states aim.now) found.part.region) }
    ensures exact { let system = cases_of setting.now.about.now in
        IfOk result (λ found. found.gap ≡ None → IsExactFor system (aim_states aim.now) found.part.region) }
    ensures known { let system = cases_of setting.now.about.now in
        let s = aim_states aim.now in
        IfOk result (λ found. (last : ℕ) → IsLastRound system 8 last → IsKnownFor system last false s found.part.region) }
    ensures bounded { let system = cases_of setting.now.about.now in
        IfOk result (λ found. IsFewFor system (aim_states aim.now) found.part.region) }
    ensures plain { let system = cases_of setting.now.about.now in
        IfOk result (λ found. HasNoGapIfPlain system (aim_states aim.now) found.gap) }
    ensures refused { let system = cases_of setting.now.about.now in
        IfErr result (λ fault. (last : ℕ) → IsLastRound system 8 last →
        IsRefusedFor system setting.now.budget.now last (aim_states aim.now) fault) }
    ensures counted { let system = cases_of setting.now.about.now in
        IfErr result (λ fault. (last : ℕ) → IsLastRound system 8 last →
        IsCountedFor system setting.now.budget.now last (aim_states aim.now) fault) }
{
    // From this call it is known that the cases are proper.
    let _variables = setting.about.variables();
    let ranks = ranks_for(setting, aim)?;
    let search = search_in(setting, &ranks)?;
    found_of(&search, aim)
}
