ghost use Rattle.std.specs.Prelude.{◌≡◌, ◌++◌, ◌∷◌, [], ℕ, List, pos, IfOk, OnOk};
ghost use Rattle.tv_lines.specs.Lines.{formed, lines_of};
ghost use Rattle.tv_lines.specs.declared.head.Head.TheVariants as heads;
ghost use Rattle.tv_formula.specs.Properties.{Property};
ghost use Rattle.tv_cert.specs.Obligations.{About};
ghost use Rattle.tv_shape.specs.Certificates.{IsOf};
ghost use Rattle.tv_cert_reader.specs.CertificateLines.{lines_about};
ghost use Rattle.tv_cert_spelling.specs.Spelling.{IsMade, all_spelled, said_lines, at_lines};

use crate::nodes::append_node;
use crate::parts::{append_cover, append_line};
use std::alloc::{AllocError, Global};
use tv_cert::Verdict;
use tv_lines::Head;
use tv_shape::Certificate;

/// Adds the line that says whether it is proved or disproved.
fn append_said(alloc: Global, out: &mut Vec<u8>, verdict: &Verdict) -> Result<(), AllocError>
    ensures { OnOk result (out.new.items ≡ out.old.items ++ all_spelled (said_lines verdict.now)) }
{
    match verdict {
        Verdict::Proved(_) => append_line(alloc, out, Head::Proved, &[]),
        Verdict::Disproved { .. } => append_line(alloc, out, Head::Disproved, &[]),
    }
}

/// Adds the line of a piece and the values in it.
fn append_values(
    alloc: Global,
    out: &mut Vec<u8>,
    piece: u32,
    values: &[i128],
) -> Result<(), AllocError>
    ensures { OnOk result (out.new.items ≡ out.old.items ++ all_spelled (formed heads.At (pos piece ∷ values.now) ∷ [])) }
{
    let mut numbers = Vec::new(alloc);
    numbers.push(piece as i128)?;
    numbers.extend_from_slice(values)?;
    append_line(alloc, out, Head::At, &numbers)
}

/// Adds what is said of the start: its cover, or a piece and the values in it.
fn append_start(alloc: Global, out: &mut Vec<u8>, verdict: &Verdict) -> Result<(), AllocError>
    ensures { OnOk result (out.new.items ≡ out.old.items ++ all_spelled (at_lines verdict.now)) }
{
    match verdict {
        Verdict::Proved(start) => append_cover(alloc, out, start.tree()),
        Verdict::Disproved { piece, values } => append_values(alloc, out, *piece, values),
    }
}

/// The text of a certificate, in its one spelling.
///
/// It is read again as a certificate with the same lines.
pub fn write_certificate(alloc: Global, certificate: &Certificate) -> Result<Vec<u8>, AllocError>
    requires made { IsMade certificate.now }
    ensures spelled { (about : About) → (f : Property) → IsOf about f certificate.now →
        IfOk result (λ text. text.items ≡ all_spelled (lines_about about f certificate.now)) }
    // It is read again as the lines that were written.
    ensures again { (about : About) → (f : Property) → IsOf about f certificate.now →
        IfOk result (λ text. lines_of text.items ≡ lines_about about f certificate.now) }
{
    let mut text = Vec::new(alloc);
    append_line(alloc, &mut text, Head::Header, &[])?;
    append_said(alloc, &mut text, certificate.verdict())?;
    append_node(alloc, &mut text, certificate.kinds(), certificate.root())?;
    append_start(alloc, &mut text, certificate.verdict())?;
    append_line(alloc, &mut text, Head::End, &[])?;
    Ok(text)
}
