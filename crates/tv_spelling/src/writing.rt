//! Texts, names and numbers at the end of a text.

ghost use Rattle.std.specs.Prelude.{◌≡◌, ◌++◌, [], IfOk, OnOk, slice_index_or, string_bytes};
ghost use Rattle.std.specs.Fmt.{signed_decimal};

use std::alloc::{AllocError, Global};
use tv_program::Names;

/// The bytes are added.
pub fn append_text(out: &mut Vec<u8>, text: &[u8]) -> Result<(), AllocError>
    ensures { OnOk result (out.new.items ≡ out.old.items ++ text.now) }
{
    out.extend_from_slice(text)
}

fn decimal(alloc: Global, number: i128) -> Result<String, AllocError>
    ensures { IfOk result (λ text. string_bytes text ≡ signed_decimal number) }
{
    format!(in alloc; "{number}")
}

pub(crate) fn append_number(
    alloc: Global,
    out: &mut Vec<u8>,
    number: i128,
) -> Result<(), AllocError>
    ensures { OnOk result (out.new.items ≡ out.old.items ++ signed_decimal number) }
{
    let text = decimal(alloc, number)?;
    out.extend_from_slice(text.as_bytes())
}

fn word_of(names: &Names, variable: u32) -> &[u8]
    ensures { result.now ≡ slice_index_or names.now variable [] }
{
    if variable < names.len() {
        names.text(variable)
    } else {
        b""
    }
}

/// The word with this number is added; a number that has none is ignored.
pub fn append_name(out: &mut Vec<u8>, names: &Names, variable: u32) -> Result<(), AllocError>
    ensures { OnOk result (out.new.items ≡ out.old.items ++ slice_index_or names.now variable []) }
{
    out.extend_from_slice(word_of(names, variable))
}
