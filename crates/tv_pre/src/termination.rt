// What is found of termination and of its negation: by the ranks of the program, and else by rounds.

ghost use Rattle.std.specs.Prelude.{◌≡◌, ◌≤◌, [], ◌∷◌, IfOk};
ghost use Rattle.std.specs.Result.{IfErr};
ghost use Rattle.tv_formula.specs.declared.tree.Path.TheVariants.{Every, Any};
ghost use Rattle.tv_formula.specs.Properties.{term};
ghost use Rattle.tv_cases.specs.Systems.{cases_of};
ghost use Rattle.tv_cert.specs.Statements as statements;
ghost use Rattle.tv_lexrank.specs.Nodes.{IsRankedNode};
ghost use Rattle.tv_rounds.specs.Calls.{IsNowhere};
ghost use Rattle.tv_pre.specs.declared.fault.PreFault.TheVariants.{Memory};
ghost use Rattle.tv_pre.specs.Ending.{AreEndLayers, AsksEndLayers};
ghost use Rattle.tv_pre.specs.Finding.{IsFound, IsRefusedFor, IsTameFor};
ghost use Rattle.tv_pre.specs.Fixed.{IsJoined};
ghost use Rattle.tv_pre.specs.Counted.{IsCountedFor};
ghost use Rattle.tv_pre.specs.Parts.{IsPart};
ghost use Rattle.tv_pre.specs.Questions.{IsRefusal};
ghost use Rattle.tv_pre.specs.Search.{system_of, IsSearch, IsRanking};
ghost use Rattle.tv_known.specs.Ranking.{HasLexicographicRanking};
ghost use Rattle.tv_pre.specs.KnownStates.{IsKnownFor, IsKnownIfUnranked};
ghost use Rattle.tv_pre.specs.Termination.{anything, stopping, nothing, going, AreSidesOf, IsFoundIfUnranked};

use crate::along::rounds_of;
use crate::coming::everywhere;
use crate::empty::empty_part;
use crate::ranking::{Ranking, Ranks, ranks_of};
use crate::regions::{back_into, nowhere};
use crate::search::Search;
use crate::{Found, Gap, Part, PreFault, Setting, Sides, ends_by_rounds, ends_ranked, never_ends};
use tv_cert::Node;
use tv_copy::copy_node;
use tv_farkas::CoverFault;
use tv_formula::{Path, Shape};
use tv_linear::{Region, push_item};
use tv_rounds::Rounds;

/// The part of termination of the states without a step and of layers after them.
fn ended_after(setting: &Setting, stops: Region, layers: Vec<Region>) -> Result<Part, CoverFault>
    requires splits { setting.now.budget.now.splits ≤ 128 }
    requires layers { AreEndLayers (cases_of setting.now.about.now) [] (stops ∷ layers.items) }
    ensures region { IfOk result (λ part. IsJoined (cases_of setting.now.about.now) (stops ∷ layers.items) part.region) }
    ensures part { let about = cases_of setting.now.about.now in
        IfOk result (λ part. IsPart about term part.region part.node) }
    ensures refusals { let about = cases_of setting.now.about.now in
        IfErr result (IsRefusal about setting.now.budget.now (AsksEndLayers about [] (stops ∷ layers.items))) }
{
    let mut all = Vec::new(setting.alloc);
    push_item(&mut all, stops)?;
    let mut behind = layers;
    all.append(&mut behind)?;
    ends_by_rounds(setting, all)
}

/// What the rounds tell of termination where going back is exact: the states without a step, and those that are driven to them.
fn ends_in_rounds(search: &Search, anywhere: &Region, stops: Region) -> Result<Found, PreFault>
    requires search { IsSearch search.now }
    requires sides { AreSidesOf (system_of search.now) Every anything stopping anywhere.now stops }
    requires tame { IsTameFor (system_of search.now) anywhere.now stops }
    ensures found { IfOk result (IsFoundIfUnranked (system_of search.now) search.now.last statements.ends) }
    ensures known { IfOk result (IsKnownIfUnranked (system_of search.now) search.now.last search.now.alone statements.ends) }
    ensures refused { let about = system_of search.now in
        IfErr result (IsRefusedFor about search.now.setting.now.budget.now search.now.last statements.ends) }
    ensures counted { let about = system_of search.now in
        IfErr result (IsCountedFor about search.now.setting.now.budget.now search.now.last statements.ends) }
{
    let setting = search.setting;
    let _variables = setting.about.variables();
    let sides = Sides {
        path: Path::Every,
        shape: Shape::Until,
        first: anywhere,
        second: &stops,
    };
    match rounds_of(search, &sides, &stops)? {
        Rounds::Settled {
            region: _,
            at: _,
            layers,
        } => {
            let part = ended_after(setting, stops, layers)?;
            let gap = None;
            Ok(Found { part, gap, size: 1 })
        }
        Rounds::Open { region: _, layers } => {
            let part = ended_after(setting, stops, layers)?;
            let gap = Some(Gap::Open { place: 0 });
            Ok(Found { part, gap, size: 1 })
        }
    }
}

/// What is found of termination without ranks: by rounds, where going back is exact; else it holds at the states without a step.
fn ends_unranked(search: &Search) -> Result<Found, PreFault>
    requires search { IsSearch search.now }
    ensures found { IfOk result (IsFoundIfUnranked (system_of search.now) search.now.last statements.ends) }
    ensures known { IfOk result (IsKnownIfUnranked (system_of search.now) search.now.last search.now.alone statements.ends) }
    ensures refused { let about = system_of search.now in
        IfErr result (IsRefusedFor about search.now.setting.now.budget.now search.now.last statements.ends) }
    ensures counted { let about = system_of search.now in
        IfErr result (IsCountedFor about search.now.setting.now.budget.now search.now.last statements.ends) }
{
    let setting = search.setting;
    let _variables = setting.about.variables();
    let anywhere = everywhere(setting.alloc, setting.about)?;
    let none = nowhere(setting);
    let stops = back_into(setting, Path::Every, &none)?;
    if search.is_tame(&anywhere, &stops) {
        return Ok(ends_in_rounds(search, &anywhere, stops)?);
    }
    let part = ended_after(setting, stops, Vec::new(setting.alloc))?;
    let gap = Some(Gap::Inexact);
    Ok(Found { part, gap, size: 1 })
}

/// What the rounds tell of the negation of termination where going back is exact: where they settle, the states from which some run stays
/// among them.
fn never_in_rounds(search: &Search, none: &Region, goes: &Region) -> Result<Found, PreFault>
    requires search { IsSearch search.now }
    requires nowhere { IsNowhere (system_of search.now) none.now }
    requires sides { AreSidesOf (system_of search.now) Any nothing going none.now goes.now }
    requires tame { IsTameFor (system_of search.now) goes.now none.now }
    ensures found { IfOk result (IsFoundIfUnranked (system_of search.now) search.now.last statements.never_ends) }
    ensures known { IfOk result (IsKnownIfUnranked (system_of search.now) search.now.last search.now.alone statements.never_ends) }
    ensures refused { let about = system_of search.now in
        IfErr result (IsRefusedFor about search.now.setting.now.budget.now search.now.last statements.never_ends) }
    ensures counted { let about = system_of search.now in
        IfErr result (IsCountedFor about search.now.setting.now.budget.now search.now.last statements.never_ends) }
{
    let setting = search.setting;
    let _variables = setting.about.variables();
    let sides = Sides {
        path: Path::Any,
        shape: Shape::Release,
        first: none,
        second: goes,
    };
    match rounds_of(search, &sides, none)? {
        Rounds::Settled {
            region,
            at: _,
            layers: _,
        } => {
            let part = never_ends(setting, region)?;
            let gap = None;
            Ok(Found { part, gap, size: 1 })
        }
        Rounds::Open {
            region: _,
            layers: _,
        } => {
            let part = empty_part(setting)?;
            let gap = Some(Gap::Open { place: 0 });
            Ok(Found { part, gap, size: 1 })
        }
    }
}

/// What is found of the negation of termination without ranks: by rounds, where going back is exact; else nothing.
fn never_unranked(search: &Search) -> Result<Found, PreFault>
    requires search { IsSearch search.now }
    ensures found { IfOk result (IsFoundIfUnranked (system_of search.now) search.now.last statements.never_ends) }
    ensures known { IfOk result (IsKnownIfUnranked (system_of search.now) search.now.last search.now.alone statements.never_ends) }
    ensures refused { let about = system_of search.now in
        IfErr result (IsRefusedFor about search.now.setting.now.budget.now search.now.last statements.never_ends) }
    ensures counted { let about = system_of search.now in
        IfErr result (IsCountedFor about search.now.setting.now.budget.now search.now.last statements.never_ends) }
{
    let setting = search.setting;
    let _variables = setting.about.variables();
    let anywhere = everywhere(setting.alloc, setting.about)?;
    let none = nowhere(setting);
    let goes = back_into(setting, Path::Any, &anywhere)?;
    if search.is_tame(&goes, &none) {
        return Ok(never_in_rounds(search, &none, &goes)?);
    }
    let part = empty_part(setting)?;
    let gap = Some(Gap::Inexact);
    Ok(Found { part, gap, size: 1 })
}

/// What is found of termination where a node ranks all states: it holds everywhere.
fn all_ended(search: &Search, node: Node) -> Result<Found, PreFault>
    requires ranked { IsRankedNode (system_of search.now) node }
    requires lexicographic { HasLexicographicRanking (system_of search.now) }
    ensures found { IfOk result (IsFound (system_of search.now) search.now.last statements.ends) }
    ensures known { let about = system_of search.now in
        IfOk result (λ found. IsKnownFor about search.now.last search.now.alone statements.ends found.part.region) }
    ensures memory { IfErr result (λ fault. fault ≡ Memory) }
{
    let part = ends_ranked(search.setting.alloc, search.setting.about, node)?;
    let gap = None;
    Ok(Found { part, gap, size: 1 })
}

/// What is found of termination where the ranks are looked for anew, as the fault of a system is given away: where the rounds leave a gap, it
/// is why nothing more is found.
fn ends_anew(search: &Search) -> Result<Found, PreFault>
    requires search { IsSearch search.now }
    ensures found { IfOk result (IsFound (system_of search.now) search.now.last statements.ends) }
    ensures known { let about = system_of search.now in
        IfOk result (λ found. IsKnownFor about search.now.last search.now.alone statements.ends found.part.region) }
    ensures refused { let about = system_of search.now in
        IfErr result (IsRefusedFor about search.now.setting.now.budget.now search.now.last statements.ends) }
    ensures counted { let about = system_of search.now in
        IfErr result (IsCountedFor about search.now.setting.now.budget.now search.now.last statements.ends) }
{
    match ranks_of(search.setting)? {
        Ranks::Known(ranking) => Ok(all_ended(search, ranking.node)?),
        Ranks::Lacking => Ok(ends_unranked(search)?),
        Ranks::Refused { system, fault } => {
            let found = ends_unranked(search)?;
            match found.gap {
                None => Ok(found),
                Some(_) => Err(PreFault::Rank { system, fault }),
            }
        }
    }
}

/// What is found of termination where these are the ranks of the program: their node is copied.
fn ends_known(search: &Search, ranking: &Ranking) -> Result<Found, PreFault>
    requires ranking { IsRanking (system_of search.now) ranking.now }
    ensures found { IfOk result (IsFound (system_of search.now) search.now.last statements.ends) }
    ensures known { let about = system_of search.now in
        IfOk result (λ found. IsKnownFor about search.now.last search.now.alone statements.ends found.part.region) }
    ensures refused { let about = system_of search.now in
        IfErr result (IsRefusedFor about search.now.setting.now.budget.now search.now.last statements.ends) }
    ensures counted { let about = system_of search.now in
        IfErr result (IsCountedFor about search.now.setting.now.budget.now search.now.last statements.ends) }
{
    let node = copy_node(search.setting.alloc, &ranking.node)?;
    Ok(all_ended(search, node)?)
}

/// What is found of termination: where the program is ranked it holds everywhere; else by rounds.
pub(crate) fn ends_found(search: &Search) -> Result<Found, PreFault>
    requires search { IsSearch search.now }
    ensures found { IfOk result (IsFound (system_of search.now) search.now.last statements.ends) }
    ensures known { let about = system_of search.now in
        IfOk result (λ found. IsKnownFor about search.now.last search.now.alone statements.ends found.part.region) }
    ensures refused { let about = system_of search.now in
        IfErr result (IsRefusedFor about search.now.setting.now.budget.now search.now.last statements.ends) }
    ensures counted { let about = system_of search.now in
        IfErr result (IsCountedFor about search.now.setting.now.budget.now search.now.last statements.ends) }
{
    match search.ranks {
        Some(Ranks::Known(ranking)) => ends_known(search, ranking),
        Some(Ranks::Lacking) => Ok(ends_unranked(search)?),
        _ => ends_anew(search),
    }
}

/// What is found of the negation of termination in a ranked program: it holds nowhere.
fn never_ranked(search: &Search, _ranking: &Ranking) -> Result<Found, PreFault>
    requires ranking { IsRanking (system_of search.now) _ranking.now }
    ensures found { IfOk result (IsFound (system_of search.now) search.now.last statements.never_ends) }
    ensures known { let about = system_of search.now in
        IfOk result (λ found. IsKnownFor about search.now.last search.now.alone statements.never_ends found.part.region) }
    ensures memory { IfErr result (λ fault. fault ≡ Memory) }
{
    let _variables = search.setting.about.variables();
    let part = empty_part(search.setting)?;
    let gap = None;
    Ok(Found { part, gap, size: 1 })
}

/// What is found of the negation of termination where the ranks are looked for anew, as the fault of a system is given away: where the rounds
/// leave a gap, it is why nothing more is found.
fn never_anew(search: &Search) -> Result<Found, PreFault>
    requires search { IsSearch search.now }
    ensures found { IfOk result (IsFound (system_of search.now) search.now.last statements.never_ends) }
    ensures known { let about = system_of search.now in
        IfOk result (λ found. IsKnownFor about search.now.last search.now.alone statements.never_ends found.part.region) }
    ensures refused { let about = system_of search.now in
        IfErr result (IsRefusedFor about search.now.setting.now.budget.now search.now.last statements.never_ends) }
    ensures counted { let about = system_of search.now in
        IfErr result (IsCountedFor about search.now.setting.now.budget.now search.now.last statements.never_ends) }
{
    match ranks_of(search.setting)? {
        Ranks::Known(ranking) => Ok(never_ranked(search, &ranking)?),
        Ranks::Lacking => Ok(never_unranked(search)?),
        Ranks::Refused { system, fault } => {
            let found = never_unranked(search)?;
            match found.gap {
                None => Ok(found),
                Some(_) => Err(PreFault::Rank { system, fault }),
            }
        }
    }
}

/// What is found of the negation of termination: where the program is ranked it holds nowhere; else by rounds.
pub(crate) fn never_found(search: &Search) -> Result<Found, PreFault>
    requires search { IsSearch search.now }
    ensures found { IfOk result (IsFound (system_of search.now) search.now.last statements.never_ends) }
    ensures known { let about = system_of search.now in
        IfOk result (λ found. IsKnownFor about search.now.last search.now.alone statements.never_ends found.part.region) }
    ensures refused { let about = system_of search.now in
        IfErr result (IsRefusedFor about search.now.setting.now.budget.now search.now.last statements.never_ends) }
    ensures counted { let about = system_of search.now in
        IfErr result (IsCountedFor about search.now.setting.now.budget.now search.now.last statements.never_ends) }
{
    match search.ranks {
        Some(Ranks::Known(ranking)) => Ok(never_ranked(search, ranking)?),
        Some(Ranks::Lacking) => Ok(never_unranked(search)?),
        _ => never_anew(search),
    }
}
