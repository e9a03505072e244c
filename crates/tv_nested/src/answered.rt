// Nested terms of a program.

ghost use Rattle.std.specs.Prelude.{◌≡◌, ◌≤◌, length, IfOk};
ghost use Rattle.std.specs.Result.{IfErr};
ghost use Rattle.tv_cases.specs.Systems.{cases_of};
ghost use Rattle.tv_lexrank.specs.Attempt.{AreBelow};
ghost use Rattle.tv_nested.specs.Nested.{IsNested, RefusesNest, RefusesNode};
ghost use Rattle.tv_nested.specs.Ranks.{AreNested, AreRanked, signs_at};
ghost use Rattle.tv_nested.specs.Steps.{IsSignStart};

use crate::attempt::{Attempt, nest_components};
use crate::node::nested_node;
use crate::part::Part;
use crate::ranking::{Ranking, rank_count};
use crate::stepping::start_tree;
use crate::{NestFault, Nested};
use std::alloc::{AllocError, Global};
use tv_cases::Cases;
use tv_farkas::Budget;
use tv_lexrank::{bare_region, components_of, count_of};
use tv_linear::Cover;

/// A cover of the start by the pieces there.
fn begin(alloc: Global, ranking: &Ranking) -> Result<Cover, AllocError>
    requires { AreRanked ranking.now }
    ensures { let about = cases_of ranking.now.about.now in
        IfOk result (IsSignStart about.variables (signs_at ranking.now about.start)) }
{
    let signs = ranking.signs(alloc, ranking.about.start())?;
    let tree = start_tree(alloc, ranking.about.variables(), &signs)?;
    match Cover::new(tree) {
        Some(cover) => Ok(cover),
        None => unreachable!(),
    }
}

/// The answer where all components have terms: the node, and the cover of the start.
fn nested_parts(
    alloc: Global,
    about: &Cases,
    numbers: &[u32],
    parts: &[Part],
) -> Result<Nested, NestFault>
    requires below { AreBelow (length parts.now) numbers.now }
    requires bounded { length parts.now ≤ 1024 }
    requires parts { AreNested (cases_of about.now) numbers.now parts.now }
    ensures nested { IfOk result (IsNested (cases_of about.now)) }
    ensures refusals { IfErr result (RefusesNode (cases_of about.now)) }
{
    let count = rank_count(parts);
    let ranking = Ranking {
        about,
        numbers,
        parts,
        count,
    };
    let node = match nested_node(alloc, &ranking) {
        Ok(node) => node,
        Err(fault) => return Err(fault),
    };
    let start = begin(alloc, &ranking)?;
    Ok(Nested::Node { node, start })
}

/// Looks for terms that become decreasing one after the other, where no rows are known, so that every run ends.
///
/// The strongly connected components of the location graph are looked at one after the other, in the order of their numbers. Rounds take
/// cases out of those inside a component that have a rational point, as for lexicographic ranks. Where they leave a set, terms of the
/// least depth from 2 to 4 are sought that are nested over it: each of them and the one before it together fall by at least 1 over each
/// case of the set, and the last is at least 0 before it.
///
/// At each location of such a component a piece of the node has the first terms below 0 and the next one at least 0; one more has all of
/// them below 0. The ranks of a location are the number of the component, the terms of its rounds, and then those that are nested.
///
/// `None` names the first component over whose set none are nested. `Solve` comes where the named system is not settled, and `Cover` where
/// the sign of a nested term is too wide.
pub fn nest(alloc: Global, about: &Cases, budget: &Budget) -> Result<Nested, NestFault>
    ensures nested { IfOk result (IsNested (cases_of about.now)) }
    ensures refusals { IfErr result (RefusesNest (cases_of about.now) budget.now) }
{
    let numbers = components_of(alloc, about)?;
    let count = count_of(&numbers);
    let known = bare_region(alloc, about.variables(), about.locations())?;
    match nest_components(alloc, about, &known, &numbers, count, budget.pivots) {
        Err(fault) => Err(fault),
        Ok(
            Attempt::Stuck {
                component,
                set,
                barriers,
            },
        ) => Ok(Nested::None {
            component,
            set,
            barriers,
        }),
        Ok(Attempt::Whole(parts)) => {
            match nested_parts(alloc, about, &numbers, &parts) {
                Ok(nested) => Ok(nested),
                Err(fault) => Err(fault),
            }
        }
    }
}
