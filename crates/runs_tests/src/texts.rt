use std::alloc::{AllocError, Global};
use std::process::Abort;
use tv_propose::{Bounds, Differences, GuardRows, Proposer};
use tv_text::{MemSink, MemSource};
use tv_top::{Status, run};

/// Words, texts in a row, what a run with the words on the texts writes, and how it ends.
pub(crate) type Asked = (
    &'static [&'static str],
    &'static [&'static str],
    &'static str,
    Status,
);

/// What offers rows of each kind.
pub(crate) fn add_proposers(
    alloc: Global,
    proposers: &mut Vec<Box<dyn Proposer>>,
) -> Result<(), AllocError> {
    proposers.push(Box::new(alloc, GuardRows::new(2000))?)?;
    proposers.push(Box::new(alloc, Bounds::new(2000))?)?;
    proposers.push(Box::new(alloc, Differences::new(2000))?)?;
    Ok(())
}

/// What offers rows of each kind, and nothing else.
pub(crate) fn all_proposers(alloc: Global) -> Result<Vec<Box<dyn Proposer>>, AllocError> {
    let mut proposers = Vec::new(alloc);
    add_proposers(alloc, &mut proposers)?;
    Ok(proposers)
}

/// Runs the words on the text into the sink, under what these proposers offer.
fn run_into(
    alloc: Global,
    words: &[&str],
    text: Vec<u8>,
    sink: &mut MemSink,
    proposers: Vec<Box<dyn Proposer>>,
) -> Status {
    let mut source = MemSource::new(text, 4096, Vec::new(alloc));
    run(alloc, words, &mut source, sink, proposers)
}

/// Whether a run with the words on the text, under what these proposers offer, writes this, and ends so.
pub(crate) fn says_under(
    alloc: Global,
    words: &[&str],
    text: Vec<u8>,
    proposers: Vec<Box<dyn Proposer>>,
    written: &str,
    status: Status,
) -> Result<bool, AllocError> {
    let mut sink = MemSink::new(alloc, 2000, 4096, Vec::new(alloc))?;
    let found = run_into(alloc, words, text, &mut sink, proposers);
    Ok(found == status && sink.written() == written.as_bytes())
}

/// Whether a run with the words on the text, under what these proposers offer, writes this line first, and ends so.
pub(crate) fn begins_under(
    alloc: Global,
    words: &[&str],
    text: Vec<u8>,
    proposers: Vec<Box<dyn Proposer>>,
    line: &str,
    status: Status,
) -> Result<bool, AllocError> {
    let mut sink = MemSink::new(alloc, 2000, 4096, Vec::new(alloc))?;
    let found = run_into(alloc, words, text, &mut sink, proposers);
    Ok(found == status && sink.written().starts_with(line.as_bytes()))
}

/// Whether a run with the words on the text writes this, and ends so.
pub(crate) fn says(
    alloc: Global,
    words: &[&str],
    text: Vec<u8>,
    written: &str,
    status: Status,
) -> Result<bool, AllocError> {
    let proposers = all_proposers(alloc)?;
    says_under(alloc, words, text, proposers, written, status)
}

/// The same, of texts in a row.
pub(crate) fn says_of(
    alloc: Global,
    words: &[&str],
    texts: &[&str],
    written: &str,
    status: Status,
) -> Result<bool, AllocError> {
    says(alloc, words, joined(alloc, texts)?, written, status)
}

/// Whether a run writes what it is to write, and ends so. Where memory runs out, it is not.
fn is_said(alloc: Global, asked: &Asked) -> bool {
    let (words, texts, written, status) = asked;
    says_of(alloc, words, texts, written, *status) == Ok(true)
}

/// Each run is to write what is wanted, and to end so.
pub(crate) fn expect_said(rt: &impl Abort, alloc: Global, list: &[Asked]) {
    for asked in list {
        assert!(rt; is_said(alloc, asked), "{asked:?}");
    }
}

/// What a run with the words on the text writes.
fn written_by(alloc: Global, words: &[&str], text: Vec<u8>) -> Result<MemSink, AllocError> {
    let proposers = all_proposers(alloc)?;
    let mut sink = MemSink::new(alloc, 65536, 4096, Vec::new(alloc))?;
    run_into(alloc, words, text, &mut sink, proposers);
    Ok(sink)
}

/// What a run with the words on the texts in a row writes.
pub(crate) fn output(alloc: Global, words: &[&str], texts: &[&str]) -> Result<Vec<u8>, AllocError> {
    let sink = written_by(alloc, words, joined(alloc, texts)?)?;
    Vec::from_slice(alloc, sink.written())
}

/// The texts in a row.
pub(crate) fn joined(alloc: Global, texts: &[&str]) -> Result<Vec<u8>, AllocError> {
    let mut text = Vec::new(alloc);
    for part in texts {
        text.extend_from_slice(part.as_bytes())?;
    }
    Ok(text)
}

/// The words, and one more after them.
fn with_word<'a>(
    alloc: Global,
    words: &[&'a str],
    word: &'a str,
) -> Result<Vec<&'a str>, AllocError> {
    let mut longer = Vec::from_slice(alloc, words)?;
    longer.push(word)?;
    Ok(longer)
}

/// What a run that is to show a certificate writes.
fn output_with_certificate(
    alloc: Global,
    words: &[&str],
    texts: &[&str],
) -> Result<Vec<u8>, AllocError> {
    let words = with_word(alloc, words, "--certificate")?;
    output(alloc, &words, texts)
}

/// The texts in a row, and the certificate after them.
fn with_certificate(
    alloc: Global,
    texts: &[&str],
    certificate: &[u8],
) -> Result<Vec<u8>, AllocError> {
    let mut text = joined(alloc, texts)?;
    text.extend_from_slice("\nCERTIFICATE:\n".as_bytes())?;
    text.extend_from_slice(certificate)?;
    Ok(text)
}

/// Whether the certificate is accepted for what is asked, with the same lines.
fn is_checked(alloc: Global, asked: &Asked, certificate: &[u8]) -> Result<bool, AllocError> {
    let (words, texts, lines, status) = asked;
    let words = with_word(alloc, words, "--check")?;
    let text = with_certificate(alloc, texts, certificate)?;
    says(alloc, &words, text, lines, *status)
}

/// Whether the certificate that is written after the lines of the verdict is accepted, with the same lines.
fn shows(alloc: Global, asked: &Asked) -> Result<bool, AllocError> {
    let (words, texts, lines, _) = asked;
    let written = output_with_certificate(alloc, words, texts)?;
    match written.strip_prefix(lines.as_bytes()) {
        Some(certificate) => is_checked(alloc, asked, certificate),
        None => Ok(false),
    }
}

fn is_shown(alloc: Global, asked: &Asked) -> bool {
    shows(alloc, asked) == Ok(true)
}

/// The certificate that each run writes after its verdict is to be accepted, with the same verdict.
pub(crate) fn expect_shown(rt: &impl Abort, alloc: Global, list: &[Asked]) {
    for asked in list {
        assert!(rt; is_shown(alloc, asked), "{asked:?}");
    }
}

/// The front, and after it the lines of the certificate, with this text in place of the line with the number.
pub(crate) fn with_line(
    alloc: Global,
    front: &str,
    certificate: &str,
    number: u32,
    line: &str,
) -> Result<Vec<u8>, AllocError> {
    let mut text = Vec::from_slice(alloc, front.as_bytes())?;
    let mut at: u32 = 1;
    for byte in certificate.as_bytes() {
        if at != number {
            text.push(*byte)?;
        }
        if *byte == b'\n' {
            if at == number {
                text.extend_from_slice(line.as_bytes())?;
            }
            at = at.saturating_add(1);
        }
    }
    Ok(text)
}

/// The front, and after it `count` lines of the certificate.
pub(crate) fn with_lines(
    alloc: Global,
    front: &str,
    certificate: &str,
    count: u32,
) -> Result<Vec<u8>, AllocError> {
    let mut text = Vec::from_slice(alloc, front.as_bytes())?;
    let mut at: u32 = 0;
    for byte in certificate.as_bytes() {
        if at < count {
            text.push(*byte)?;
        }
        if *byte == b'\n' {
            at = at.saturating_add(1);
        }
    }
    Ok(text)
}

/// The letters of a number below 17,576, with the same length for each.
fn letters(number: u32) -> [u8; 3] {
    [
        b'a' + (number / 26 / 26 % 26) as u8,
        b'a' + (number / 26 % 26) as u8,
        b'a' + (number % 26) as u8,
    ]
}

/// Puts the part at the end of the text, with the letters of the number for each `#`.
fn push_part(text: &mut Vec<u8>, part: &str, number: u32) -> Result<(), AllocError> {
    for byte in part.as_bytes() {
        if *byte == b'#' {
            text.extend_from_slice(letters(number).as_slice())?;
        } else {
            text.push(*byte)?;
        }
    }
    Ok(())
}

/// A text of a front, of the part `times` times, and of an end. Each `#` of a part stands for three letters, others in each part.
pub(crate) fn repeated(
    alloc: Global,
    front: &str,
    part: &str,
    times: u32,
    end: &str,
) -> Result<Vec<u8>, AllocError> {
    let mut text = Vec::from_slice(alloc, front.as_bytes())?;
    for number in 0..times {
        push_part(&mut text, part, number)?;
    }
    text.extend_from_slice(end.as_bytes())?;
    Ok(text)
}
