ghost use Rattle.std.specs.Prelude.{◌≡◌, IfOk, IfErr, length};
ghost use Rattle.tv_program.specs.Programs.{system_of};
ghost use Rattle.tv_formula.specs.Formulas.{property_of, variables_of};
ghost use Rattle.tv_formula.specs.Parts.{HasParts};
ghost use Rattle.tv_top.specs.Tasks.{safety};
ghost use Rattle.tv_top.specs.Views.{query_of};
ghost use Rattle.tv_top.specs.Properties.{IsGivenFormula, IsNamed, IsNoFormula, IsUnnamed, UnlessMemory};

use crate::task::Question;
use std::alloc::Global;
use tv_formula::{Formula, termination, unreachable};
use tv_formula_reader::{FormulaFault, read_formula};
use tv_program::Program;

/// How many bytes the text of a formula has at most.
const MOST_BYTES: usize = 65536;

/// No run reaches the location with this label.
fn safety(alloc: Global, label: &str, program: &Program) -> Result<Formula, FormulaFault>
    ensures named { IfOk result (λ f. IsNamed (system_of program.now) (safety label.now) (property_of f)) }
    ensures unnamed { IfErr result (λ fault. UnlessMemory fault (IsUnnamed (system_of program.now) (safety label.now) fault)) }
    ensures parts { IfOk result (λ f. HasParts (property_of f)) }
    ensures variables { IfOk result (λ f. variables_of f ≡ length (system_of program.now).variables) }
{
    match program.locations().find(label.as_bytes()) {
        Some(location) => {
            let property = unreachable(alloc, program, location)?;
            Ok(property)
        }
        None => Err(FormulaFault::UnknownName { at: 0 }),
    }
}

/// The formula with this text.
fn formula(alloc: Global, text: &str, program: &Program) -> Result<Formula, FormulaFault>
    ensures named { IfOk result (λ f. IsGivenFormula (system_of program.now) text.now (property_of f)) }
    ensures unnamed { IfErr result (λ fault. UnlessMemory fault (IsNoFormula (system_of program.now) text.now fault)) }
    ensures parts { IfOk result (λ f. HasParts (property_of f)) }
    ensures variables { IfOk result (λ f. variables_of f ≡ length (system_of program.now).variables) }
{
    if text.len() > MOST_BYTES {
        return Err(FormulaFault::Long);
    }
    read_formula(alloc, text.as_bytes(), program)
}

/// The formula that is asked about, over the words of the program.
pub fn property(
    alloc: Global,
    question: Question,
    program: &Program,
) -> Result<Formula, FormulaFault>
    ensures named { IfOk result (λ f. IsNamed (system_of program.now) (query_of question.entry) (property_of f)) }
    ensures unnamed { IfErr result (λ fault. UnlessMemory fault (IsUnnamed (system_of program.now) (query_of question.entry) fault)) }
    ensures parts { IfOk result (λ f. HasParts (property_of f)) }
    ensures variables { IfOk result (λ f. variables_of f ≡ length (system_of program.now).variables) }
{
    match question {
        Question::Safety(label) => safety(alloc, label, program),
        Question::Termination => {
            let property = termination(alloc, program)?;
            Ok(property)
        }
        Question::Ctl(text) | Question::Finitely(text) => formula(alloc, text, program),
    }
}
