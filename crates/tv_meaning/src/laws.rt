ghost use Rattle.tv_program.specs.Programs.{system_of};
ghost use Rattle.tv_program.specs.Steps.{Steps};
ghost use Rattle.tv_formula.specs.Formulas.{property_of};
ghost use Rattle.tv_meaning.specs.Laws.{NormalImplies, NegationExcludes, NormalSays, NegationSays};

use tv_formula::Formula;
use tv_program::Program;

/// What `tv_formula::normal` gives holds only where the formula holds.
///
/// The converse needs more than constructive logic for a formula that speaks of runs; it is told for those of one state.
pub fn normal_implies(program: &Program, formula: &Formula)
    ensures implies { NormalImplies (Steps (system_of program.now)) (property_of formula.now) }
    ensures exact { NormalSays (Steps (system_of program.now)) (property_of formula.now) }
{}

/// What `tv_formula::negate` gives holds at no state at which the formula holds.
pub fn negation_excludes(program: &Program, formula: &Formula)
    ensures excludes { NegationExcludes (Steps (system_of program.now)) (property_of formula.now) }
    ensures exact { NegationSays (Steps (system_of program.now)) (property_of formula.now) }
{}
