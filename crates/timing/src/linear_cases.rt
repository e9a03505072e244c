//! The cases of the program in a text.

ghost use Rattle.std.specs.Prelude.{◌<◌, ◌^◌, ◌+◌, length};

use std::alloc::{AllocError, Global};
use tv_cases::cases;
use tv_reader::read_program;

/// How many cases the program has.
pub(crate) fn counted(alloc: Global, text: &[u8]) -> Result<String, AllocError>
    requires { length text.now + 1 < 2 ^ 32 }
{
    let Ok(program) = read_program(alloc, text) else {
        return format!(in alloc; "refused");
    };
    match cases(alloc, &program) {
        Ok(cases) => format!(in alloc; "{} cases", cases.list().len()),
        Err(fault) => format!(in alloc; "{fault}"),
    }
}
