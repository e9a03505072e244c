// What the lines of a certificate tell, carried by functions that do nothing.

ghost use Rattle.std.specs.Prelude.{◌≡◌, ℕ, List};
ghost use Rattle.tv_formula.specs.Properties.{Property};
ghost use Rattle.tv_cases.specs.LinearCases.{CaseSystem};
ghost use Rattle.tv_cert.specs.Obligations.{About};
ghost use Rattle.tv_cert.specs.Claims.{about_with, shown};
ghost use Rattle.tv_cert.specs.declared.claim.Claim.{Claim};
ghost use Rattle.tv_cert_reader.specs.CertificateLines.{lines_about};
ghost use Rattle.tv_shape.specs.Certificates.{IsOf};
ghost use Rattle.tv_shape.specs.declared.certificate.Certificate.{Certificate};
ghost use Rattle.tv_cert_reader.specs.Texts.{IsCertificateText};
ghost use Rattle.tv_cert_spelling.specs.Spelling.{all_spelled};
ghost use Rattle.tv_cert_spelling.specs.CertificateValues.{certificate_value};

/// A certificate of a formula is told by its lines: all that can be seen of it, apart from where it lies in memory.
pub fn same_lines_same_certificate()
    ensures { (about : About) (f : Property) (c d : Certificate) → IsOf about f c → IsOf about f d →
        lines_about about f c ≡ lines_about about f d →
        certificate_value c ≡ certificate_value d }
{}

/// So is one of what is claimed, whose lines tell too whether it is of the property or of its negation.
pub fn same_lines_of_one_claim()
    ensures { (about : About) (claim : Claim) (c d : Certificate) → IsOf about (shown claim c.verdict) c →
        IsOf about (shown claim d.verdict) d →
        lines_about about (shown claim c.verdict) c ≡ lines_about about (shown claim d.verdict) d →
        certificate_value c ≡ certificate_value d }
{}

/// What is written of a certificate is a text of it, so that a reader refuses it for want of memory alone; and what is read there is
/// equal to it, apart from where it lies in memory.
pub fn written_is_read()
    ensures read { (system : CaseSystem) (claim : Claim) (c : Certificate) →
        IsOf (about_with system) (shown claim c.verdict) c →
        IsCertificateText system claim (all_spelled (lines_about (about_with system) (shown claim c.verdict) c)) c }
    ensures equal { (system : CaseSystem) (claim : Claim) (c d : Certificate) →
        IsOf (about_with system) (shown claim c.verdict) c →
        IsCertificateText system claim (all_spelled (lines_about (about_with system) (shown claim c.verdict) c)) d →
        certificate_value d ≡ certificate_value c }
{}
