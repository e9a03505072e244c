//! Sums, conditions and whole programs, which are read from a text.

ghost use Rattle.std.specs.Prelude.{◌<◌, ◌^◌, ◌+◌, length};

use std::alloc::{AllocError, Global};
use tv_language::scan;
use tv_program::Names;
use tv_reader::read_program;
use tv_reading::{PartFault, Reading};

fn told(read: Result<(), PartFault>) -> &'static str {
    match read {
        Ok(()) => "read",
        Err(PartFault::Syntax { .. }) => "syntax",
        Err(PartFault::Deep { .. }) => "deep",
        Err(PartFault::Memory) => "memory",
        Err(_) => "refused",
    }
}

/// Whether the text begins with a sum.
pub(crate) fn sum(alloc: Global, text: &[u8]) -> Result<&'static str, AllocError>
    requires { length text.now + 1 < 2 ^ 32 }
{
    let list = scan(alloc, text)?;
    let mut reading = Reading::new(alloc, text, &list, Names::new(alloc), true);
    let read = match reading.sum() {
        Ok(_) => Ok(()),
        Err(fault) => Err(fault),
    };
    Ok(told(read))
}

/// Whether the text begins with a condition.
pub(crate) fn condition(alloc: Global, text: &[u8]) -> Result<&'static str, AllocError>
    requires { length text.now + 1 < 2 ^ 32 }
{
    let list = scan(alloc, text)?;
    let mut reading = Reading::new(alloc, text, &list, Names::new(alloc), true);
    let read = match reading.condition() {
        Ok(_) => Ok(()),
        Err(fault) => Err(fault),
    };
    Ok(told(read))
}

/// Whether the text is a program.
pub(crate) fn program(alloc: Global, text: &[u8]) -> &'static str
    requires { length text.now + 1 < 2 ^ 32 }
{
    match read_program(alloc, text) {
        Ok(_) => "read",
        Err(_) => "refused",
    }
}
