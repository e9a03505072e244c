ghost use Rattle.std.specs.Prelude.{◌≡◌, ◌-◌, ◌≤◌};
ghost use Rattle.tv_program.specs.Views.{expression};
ghost use Rattle.tv_formula.specs.Views.{property};
ghost use Rattle.tv_reading.specs.SumGrammar.{every};
ghost use Rattle.tv_reading.specs.Answers.{Gives};
ghost use Rattle.tv_formula_reader.specs.Answers.{left, IsOver, Stays};
ghost use Rattle.tv_formula_reader.specs.FormulaGrammar.{summed, comparison};

use crate::source::{Source, next_kind, pass_kind};
use crate::trees::compared;
use tv_formula::Tree;
use tv_language::relation_of;
use tv_program::Expr;
use tv_reading::{MOST_LEVELS, Reading, Reason};

/// A sum that nests at most `levels` deep.
fn sum(source: &Source, reading: &mut Reading, levels: u32) -> Result<Expr, Reason>
    requires over { IsOver source.now reading.old }
    requires bounded { levels ≤ 64 }
    ensures reads { Gives expression result (left source.now reading.new) ((summed every levels).read (left source.now reading.old)) }
    ensures stays { Stays source.now reading.old reading.new }
{
    let at = reading.place();
    if at as usize >= source.list.len() {
        return Err(Reason::Syntax);
    }
    reading.go(at, MOST_LEVELS - levels);
    Ok(reading.sum()?)
}

/// A comparison of two sums.
pub fn comparison(source: &Source, reading: &mut Reading, levels: u32) -> Result<Tree, Reason>
    requires over { IsOver source.now reading.old }
    requires bounded { levels ≤ 64 }
    ensures reads { Gives property result (left source.now reading.new) ((comparison every levels).read (left source.now reading.old)) }
    ensures stays { Stays source.now reading.old reading.new }
{
    let first = sum(source, reading, levels)?;
    match relation_of(next_kind(source, reading)) {
        Some(relation) => {
            pass_kind(source, reading);
            let second = sum(source, reading, levels)?;
            Ok(compared(relation, first, second))
        }
        None => Err(Reason::Syntax),
    }
}
