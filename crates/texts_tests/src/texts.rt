//! Texts that are put together, and the programs of texts.

use std::alloc::{AllocError, Global};
use std::test::Fail;
use tv_program::Program;
use tv_reader::{ReadFault, read_program};

/// Three texts in one.
pub(crate) fn joined(
    alloc: Global,
    front: &str,
    middle: &str,
    end: &str,
) -> Result<Vec<u8>, AllocError> {
    let mut text = Vec::from_slice(alloc, front.as_bytes())?;
    text.extend_from_slice(middle.as_bytes())?;
    text.extend_from_slice(end.as_bytes())?;
    Ok(text)
}

/// The bytes repeated `times` times, and then `end`.
pub(crate) fn repeated(
    alloc: Global,
    bytes: &[u8],
    times: u32,
    end: &[u8],
) -> Result<Vec<u8>, AllocError> {
    let mut text = Vec::new(alloc);
    for _ in 0..times {
        text.extend_from_slice(bytes)?;
    }
    text.extend_from_slice(end)?;
    Ok(text)
}

/// The program of a text of less than 4 GiB.
pub(crate) fn read(alloc: Global, text: &[u8]) -> Result<Program, ReadFault> {
    if text.len() >= 4294967295 {
        return Err(ReadFault::Memory);
    }
    read_program(alloc, text)
}

/// The program of a text that has one.
pub(crate) fn program_of(alloc: Global, text: &[u8]) -> Result<Program, Fail> {
    match read(alloc, text) {
        Ok(program) => Ok(program),
        Err(_) => Err(Fail::from("no program")),
    }
}
