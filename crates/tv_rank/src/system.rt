// The ranking system as the solver is handed it.

ghost use Rattle.std.specs.Prelude.{◌≡◌, ◌+◌, ◌*◌, ◌<◌, ◌≤◌, ◌++◌, length, map, All, IfOk, IsTrue, ◌↔◌};
ghost use Rattle.tv_simplex.specs.Views.{equations};
ghost use Rattle.tv_rank.specs.Given.{IsPlaced};
ghost use Rattle.tv_rank.specs.Questions.{ways_of, many_of};
ghost use Rattle.tv_rank.specs.RankingSystem.{entry as spec_entry, right_of as spec_right, entry_rows, system_over};

use crate::entries::{entry, place_of, right_of};
use crate::question::Question;
use crate::unknown::{Line, Unknown};
use std::alloc::{AllocError, Global};
use tv_linear::push_item;
use tv_simplex::{Entries, System};

/// Puts the entries of a row of the system at the end of the list.
fn push_row(
    numbers: &mut Entries,
    asked: &Question,
    unknowns: &[Unknown],
    line: Line,
) -> Result<(), AllocError>
    requires placed { IsPlaced (many_of asked.now) line.identity }
    requires size { length numbers.old + length unknowns.now ≤ 4000000 }
    ensures { let row = map (spec_entry (ways_of asked.now) asked.now.falling line) unknowns.now in
        IfOk result (λ _. numbers.new ≡ numbers.old ++ row) }
{
    let place = place_of(line.identity, asked.falling);
    let case = asked.case_at(place);
    let known = asked.known_at(place);
    'unknowns: for unknown in unknowns {
        numbers.push(entry(case, known, line, *unknown))?;
    }
    Ok(())
}

/// The entries, row by row.
pub fn entry_list(
    alloc: Global,
    asked: &Question,
    unknowns: &[Unknown],
    lines: &[Line],
) -> Result<Entries, AllocError>
    requires placed { All (λ line. IsPlaced (many_of asked.now) line.identity) lines.now }
    requires size { length lines.now * length unknowns.now ≤ 4000000 }
    ensures { IfOk result (λ v. v ≡ entry_rows (ways_of asked.now) asked.now.falling unknowns.now lines.now) }
{
    let mut numbers = Entries::new(alloc);
    'lines: for line in lines {
        push_row(&mut numbers, asked, unknowns, *line)?;
    }
    Ok(numbers)
}

/// The right sides, row by row.
pub fn right_list(alloc: Global, falling: usize, lines: &[Line]) -> Result<Vec<i128>, AllocError>
    ensures { IfOk result (λ v. v.items ≡ map (λ line. spec_right falling line.identity line.column) lines.now) }
{
    let mut numbers = Vec::with_capacity(alloc, lines.len())?;
    'lines: for line in lines {
        push_item(&mut numbers, right_of(falling, *line))?;
    }
    Ok(numbers)
}

/// Whether a system of `rows` rows and `columns` columns has more than 4,000,000 entries.
pub fn is_large(rows: usize, columns: usize) -> bool
    ensures { IsTrue result ↔ 4000000 < rows * columns }
{
    rows as u128 * columns as u128 > 4000000
}

/// The system whose solutions are families of terms, with their multipliers.
pub fn system_of(
    alloc: Global,
    asked: &Question,
    unknowns: &[Unknown],
    lines: &[Line],
) -> Result<System, AllocError>
    requires placed { All (λ line. IsPlaced (many_of asked.now) line.identity) lines.now }
    requires size { length lines.now * length unknowns.now ≤ 4000000 }
    requires few_lines { length lines.now ≤ 4000000 }
    requires few_unknowns { length unknowns.now ≤ 4000000 }
    ensures { IfOk result (λ s. equations s ≡ system_over (ways_of asked.now) asked.now.falling unknowns.now lines.now) }
{
    let entries = entry_list(alloc, asked, unknowns, lines)?;
    let right = right_list(alloc, asked.falling, lines)?;
    Ok(System {
        rows: lines.len() as u32,
        columns: unknowns.len() as u32,
        entries,
        right,
    })
}
