//! The cases of a program.

ghost use Rattle.std.specs.Prelude.{◌≡◌, ◌++◌, ◌+◌, ◌-◌, ◌*◌, ◌^◌, ◌<◌, ◌≤◌, ◌&&◌, All, length, map, sum, IfOk, nat_le, true, false, [], Ok, MatchResult};
ghost use Rattle.tv_program.specs.Views.{instruction, transition, transitions};
ghost use Rattle.tv_cases.specs.Views.{case_views};
ghost use Rattle.tv_cases.specs.Amounts.{capped, amount, amount_after, IsCapped};
ghost use Rattle.tv_cases.specs.Assigned.{assigned_below};
ghost use Rattle.tv_cases.specs.Linearity.{IsLinearEdge};
ghost use Rattle.tv_cases.specs.EdgeCases.{edge_cases, edge_is_narrow};
ghost use Rattle.tv_cases.specs.LinearCases.{coefficients};
ghost use Rattle.tv_cases.specs.ProgramCases.{are_few, cases_from};
ghost use Rattle.tv_cases.specs.EdgeFaults.{IsEdgeFault};
ghost use Rattle.tv_program.specs.Limits.{IsWithinLimits};
ghost use Rattle.tv_program.specs.Programs.{system_of};
ghost use Rattle.tv_cases.specs.Systems.{cases_of};
ghost use Rattle.tv_cases.specs.Answers.{AddsEdge, Lists, IsCollected, IsFaultIn, Answers, IsOfProgram, HaveSameSteps};

use crate::amount::{Amount, amount_of_commands, capped};
use crate::case::{Case, CaseFault, Cases};
use crate::edges::{edge_cases, is_assigned, test_edge};
use crate::fault::{EdgeFault, as_edge};
use std::alloc::{AllocError, Global};
use tv_program::{Command, Edge, Program};

/// The cases so far, and how many coefficients they have.
#[derive(Drop)]
pub(crate) struct Collected {
    pub cases: Vec<Case>,
    pub coefficients: u64,
}

/// How many variables are assigned.
fn assigned_variables(commands: &[Command], variables: u32) -> u64
    ensures is { result ≡ assigned_below (map instruction commands.now) variables }
    ensures bounded { result ≤ variables }
{
    let mut count = 0;
    for variable in 0..variables {
        if is_assigned(commands, variable) {
            count += 1;
        }
    }
    count
}

/// The number of coefficients of `amount`, where each list has `updates` updates and each row or update has `width` coefficients.
fn all_coefficients(amount: Amount, updates: u64, width: u64) -> u64
    requires capped { IsCapped amount }
    requires bounded { updates ≤ 512 }
    requires narrow { width ≤ 576 }
    ensures { result ≡ capped ((amount.rows + amount.lists * updates) * width) }
{
    capped((amount.rows + amount.lists * updates) * width)
}

/// How many coefficients the cases of an edge will have.
fn edge_coefficients(edge: &Edge, count: Amount, variables: u32) -> u64
    requires bounded { variables ≤ 512 }
    requires draws { edge.now.draws ≤ 64 }
    requires capped { IsCapped count }
    requires counted { count ≡ amount_after (amount 1 0) (transition edge.now).instructions }
    ensures { result ≡ capped (sum (map coefficients (edge_cases variables (transition edge.now)))) }
{
    let updates = assigned_variables(&edge.commands, variables);
    all_coefficients(count, updates, variables as u64 + edge.draws as u64)
}

/// Whether there is room for `lists` more cases and `coefficients` more coefficients.
fn is_room(so_far: &Collected, lists: u64, coefficients: u64) -> bool
    requires lists { lists ≤ 8000001 }
    requires coefficients { coefficients ≤ 8000001 }
    requires so_far { so_far.now.coefficients ≤ 8000000 }
    ensures { result ≡ (nat_le (length so_far.now.cases.items + lists) 8192 && nat_le (so_far.now.coefficients + coefficients) 8000000) }
{
    so_far.cases.len() as u64 + lists <= 8192 && so_far.coefficients + coefficients <= 8_000_000
}

fn appended(mut first: Vec<Case>, second: Vec<Case>) -> Result<Vec<Case>, AllocError>
    ensures { IfOk result (λ v. case_views v.items ≡ case_views first.items ++ case_views second.items) }
{
    for case in second {
        first.push(case)?;
    }
    Ok(first)
}

/// The fault of an edge with which there are too many cases.
fn too_many(alloc: Global, edge: &Edge, variables: u32) -> EdgeFault
    requires bounded { variables ≤ 512 }
    requires linear { IsLinearEdge (transition edge.now) }
    ensures { IsEdgeFault (edge_is_narrow variables (transition edge.now)) false result }
{
    match test_edge(alloc, edge, variables) {
        Ok(()) => EdgeFault::TooMany,
        Err(fault) => as_edge(fault),
    }
}

/// The cases so far and those of an edge.
fn with_edge(
    alloc: Global,
    so_far: Collected,
    edge: &Edge,
    variables: u32,
) -> Result<Collected, EdgeFault>
    requires bounded { variables ≤ 512 }
    requires linear { IsLinearEdge (transition edge.now) }
    requires so_far { IsCollected so_far }
    ensures { AddsEdge variables (case_views so_far.cases.items) (transition edge.now) result }
{
    let amount = amount_of_commands(&edge.commands);
    let coefficients = edge_coefficients(edge, amount, variables);
    if !is_room(&so_far, amount.lists, coefficients) {
        return Err(too_many(alloc, edge, variables));
    }
    if amount.lists == 0 {
        return match test_edge(alloc, edge, variables) {
            Ok(()) => Ok(so_far),
            Err(fault) => Err(as_edge(fault)),
        };
    }
    match edge_cases(alloc, edge, variables) {
        Ok(more) => {
            let Collected {
                cases,
                coefficients: before,
            } = so_far;
            Ok(Collected {
                cases: appended(cases, more)?,
                coefficients: before + coefficients,
            })
        }
        Err(fault) => Err(as_edge(fault)),
    }
}

/// The cases of the edges, in order.
fn listed(alloc: Global, edges: &[Edge], variables: u32) -> Result<Vec<Case>, CaseFault>
    requires bounded { length edges.now < 2 ^ 32 }
    requires variables { variables ≤ 512 }
    requires linear { All (λ e. IsLinearEdge (transition e)) edges.now }
    ensures { Lists variables (transitions edges.now) result }
{
    let mut so_far = Collected {
        cases: Vec::new(alloc),
        coefficients: 0,
    };
    for number in 0..edges.len() {
        so_far = match with_edge(alloc, so_far, &edges[number], variables) {
            Ok(next) => next,
            Err(EdgeFault::Wide) => return Err(CaseFault::Wide {
                edge: number as u32,
            }),
            Err(EdgeFault::TooMany) => return Err(CaseFault::TooMany {
                edge: number as u32,
            }),
            Err(EdgeFault::Memory) => return Err(CaseFault::Memory),
        };
    }
    Ok(so_far.cases)
}

/// The cases of edges within limits.
fn of_edges(
    alloc: Global,
    edges: &[Edge],
    variables: u32,
    locations: u32,
    start: u32,
) -> Result<Cases, CaseFault>
    requires { IsWithinLimits variables locations start (transitions edges.now) }
    ensures exact { let meant = cases_from variables 0 [] (transitions edges.now) in
        MatchResult result (λ c. meant ≡ Ok (cases_of c).cases) (IsFaultIn meant) }
    ensures same { IfOk result (λ c. let made = cases_of c in
        (made.variables ≡ variables) × (made.locations ≡ locations) × (made.start ≡ start)) }
{
    match listed(alloc, edges, variables) {
        Ok(list) => Ok(Cases::of(alloc, list, variables, locations, start)?),
        Err(fault) => Err(fault),
    }
}

/// The linear cases of a program: it steps exactly where one of them does.
///
/// Each command is executed on linear terms over the variables and the draws. An assumption becomes lists of rows, and
/// one of the lists has to be met whole. Each list of an edge is one case. Of several faults that of the first edge is reported, and of two
/// at one edge `Wide`.
pub fn cases(alloc: Global, program: &Program) -> Result<Cases, CaseFault>
    ensures exact { Answers (system_of program.now) result }
    ensures same_program { IfOk result (λ c. IsOfProgram (system_of program.now) (cases_of c)) }
    ensures same_steps { IfOk result (λ c. HaveSameSteps (system_of program.now) (cases_of c)) }
{
    let variables = program.variables().len();
    let locations = program.locations().len();
    of_edges(
        alloc,
        program.edges(),
        variables,
        locations,
        program.start(),
    )
}
