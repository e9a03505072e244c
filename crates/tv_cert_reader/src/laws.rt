// The laws of the grammar, each carried by a function that does nothing.

ghost use Rattle.std.specs.Prelude.{ℕ, ◌<◌};
ghost use Rattle.tv_cases.specs.LinearCases.{CaseSystem};
ghost use Rattle.tv_cert_reader.specs.CertificateGrammar.{Sides, HaveOneFault, AreRightOrAtFault, RightAreFaultless};

/// There is one first line at fault at most.
pub fn one_first_line_at_fault()
    ensures { (system : CaseSystem) → 0 < system.locations → (sides : Sides) → HaveOneFault system sides }
{}

/// Lines are those of a certificate, or one of them is the first at fault.
pub fn right_or_at_fault()
    ensures { (system : CaseSystem) → 0 < system.locations → (sides : Sides) → AreRightOrAtFault system sides }
{}

/// None of the lines of a certificate is at fault.
pub fn right_lines_are_faultless()
    ensures { (system : CaseSystem) → 0 < system.locations → (sides : Sides) → RightAreFaultless system sides }
{}
