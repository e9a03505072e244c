ghost use Rattle.std.specs.Prelude.{◌≡◌, ◌↔◌, ◌+◌, ◌^◌, ◌<◌, ◌≤◌, IfOk, ◌≢◌, IfErr, Err, length};
ghost use Rattle.tv_program.specs.Programs.{system_of};
ghost use Rattle.tv_reading.specs.SumGrammar.{every};
ghost use Rattle.tv_formula.specs.Formulas.{property_of, variables_of, locations_of};
ghost use Rattle.tv_formula.specs.Parts.{HasParts};
ghost use Rattle.tv_formula.specs.Properties.{Property};
ghost use Rattle.tv_formula.specs.Views.{property};
ghost use Rattle.tv_formula_reader.specs.Answers.{left, IsOver, Stays, Ends};
ghost use Rattle.tv_formula_reader.specs.FormulaGrammar.{text_at};
ghost use Rattle.tv_formula_reader.specs.FormulaTexts.{IsFormulaText};
ghost use Rattle.tv_formula_reader.specs.Refusals.{IsRefusal, IsGiven, IsTold};

use crate::fault::FormulaFault;
use crate::formulas::formula;
use crate::plain::end;
use crate::source::Source;
use std::alloc::Global;
use tv_formula::{Formula, Tree};
use tv_language::scan;
use tv_program::Program;
use tv_reading::{MOST_LEVELS, Reading, Reason};

/// How many bytes a formula has at most.
const MOST_BYTES: usize = 65536;

/// A formula, and the end of the text.
fn whole(source: &Source, reading: &mut Reading) -> Result<Tree, Reason>
    requires { IsOver source.now reading.old }
    ensures reads { Ends property result (left source.now reading.new) ((text_at every 64).read (left source.now reading.old)) }
    ensures stays { Stays source.now reading.old reading.new }
{
    let tree = formula(source, reading, MOST_LEVELS)?;
    end(source, reading, tree)
}

/// The fault for a reason, at this place.
fn fault_at(reason: Reason, at: u32) -> FormulaFault
    requires one_start { reason ≢ Reason.TwoStarts }
    requires room { reason ≢ Reason.TooMany }
    ensures { IsTold reason result at }
{
    match reason {
        Reason::Syntax => FormulaFault::Syntax { at },
        Reason::Wide => FormulaFault::Wide { at },
        Reason::Deep => FormulaFault::Deep { at },
        Reason::NotLinear => FormulaFault::NotLinear { at },
        Reason::TwoStarts | Reason::TooMany => unreachable!(),
        Reason::UnknownName => FormulaFault::UnknownName { at },
        Reason::Memory => FormulaFault::Memory,
    }
}

/// The formula of a text of any length.
fn read(alloc: Global, text: &[u8], program: &Program) -> Result<Formula, FormulaFault>
    requires { length text.now + 1 < 2 ^ 32 }
    ensures found { IfOk result (λ f. IsFormulaText (system_of program.now) text.now (property_of f)) }
    ensures only { (f : Property) → IsFormulaText (system_of program.now) text.now f → IsGiven result (λ g. property_of g ≡ f) }
    ensures refused { IfErr result (λ fault. IsRefusal (system_of program.now) text.now fault) }
    ensures not_long { result ≢ Err FormulaFault.Long }
    ensures variables { IfOk result (λ f. variables_of f ≡ length (system_of program.now).variables) }
    ensures locations { IfOk result (λ f. locations_of f ≡ length (system_of program.now).locations) }
{
    let list = scan(alloc, text)?;
    let names = program.variables().copy()?;
    let source = Source {
        text,
        list: &list,
        labels: program.locations(),
        alloc,
    };
    let mut reading = Reading::new(alloc, text, &list, names, false);
    match whole(&source, &mut reading) {
        Ok(tree) => {
            let variables = program.variables().len();
            let locations = program.locations().len();
            Ok(Formula::new(tree, variables, locations))
        }
        Err(reason) => Err(fault_at(reason, reading.peek().at)),
    }
}

/// The formula of a text over the words of a program.
///
/// The time is that of the text times how deep brackets nest.
pub fn read_formula(alloc: Global, text: &[u8], program: &Program) -> Result<Formula, FormulaFault>
    // What is read is the formula of the text.
    ensures found { IfOk result (λ f. IsFormulaText (system_of program.now) text.now (property_of f)) }
    // No conjunction or disjunction of it is empty.
    ensures parts { IfOk result (λ f. HasParts (property_of f)) }
    // The text of a formula is read, unless it is long.
    ensures only { (f : Property) → length text.now ≤ 65536 → IsFormulaText (system_of program.now) text.now f →
        IsGiven result (λ g. property_of g ≡ f) }
    // Else the first fault is reported, with the first kind of fault that it is.
    ensures refused { IfErr result (λ fault. IsRefusal (system_of program.now) text.now fault) }
    // Whatever else is answered, the text has at most 65,536 bytes.
    ensures long { (result ≡ Err FormulaFault.Long) ↔ (65536 < length text.now) }
    ensures short { result ≢ Err FormulaFault.Long → length text.now ≤ 65536 }
    ensures variables { IfOk result (λ f. variables_of f ≡ length (system_of program.now).variables) }
    ensures locations { IfOk result (λ f. locations_of f ≡ length (system_of program.now).locations) }
{
    if text.len() > MOST_BYTES {
        return Err(FormulaFault::Long);
    }
    read(alloc, text, program)
}
