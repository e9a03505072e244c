ghost use Rattle.std.specs.Prelude.{◌≡◌, ◌+◌, ◌<◌, ◌++◌, ◌∷◌, [], IfOk, OnOk, codes, drop, length, string_bytes};
ghost use Rattle.std.specs.Fmt.{signed_decimal};
ghost use Rattle.tv_program.specs.Programs.{system_of};
ghost use Rattle.tv_top.specs.Answers.{value_line, value_lines};

use itoa::Buffer;
use std::alloc::{AllocError, Global};
use tv_program::{Names, Program};

/// The variables of a program in the order in which they were first seen, and their values.
#[derive(Drop)]
pub struct Assignment {
    names: Names,
    values: Vec<i128>,
}

/// What follows a variable on its line.
fn value_text(alloc: Global, value: i128) -> Result<String, AllocError>
    ensures { IfOk result (λ text. string_bytes text ≡ codes " = " ++ (signed_decimal value ++ 10 ∷ [])) }
{
    let mut digits = Buffer::new();
    let value = digits.format(value);
    format!(in alloc; " = {value}\n")
}

/// The line of a variable is added.
fn append_line(alloc: Global, out: &mut Vec<u8>, name: &[u8], value: i128) -> Result<(), AllocError>
    ensures { OnOk result (out.new.items ≡ out.old.items ++ value_line name.now value) }
{
    let text = value_text(alloc, value)?;
    out.extend_from_slice(name)?;
    out.extend_from_slice(text.as_bytes())
}

impl Assignment {
    /// The values of the variables of the program, in memory of their own.
    pub fn new(alloc: Global, program: &Program, values: &[i128]) -> Result<Assignment, AllocError>
        ensures names { IfOk result (λ a. a.names ≡ (system_of program.now).variables) }
        ensures values { IfOk result (λ a. a.values.items ≡ values.now) }
    {
        let names = program.variables().copy()?;
        let values = Vec::from_slice(alloc, values)?;
        Ok(Assignment { names, values })
    }

    /// The line of the variable with this number is added, if it has a value.
    fn append_variable(
        &self,
        alloc: Global,
        out: &mut Vec<u8>,
        number: u32,
    ) -> Result<(), AllocError>
        requires { number < length self.now.names }
        ensures { let lines = value_lines (drop number self.now.names) (drop number self.now.values.items) in
            let later = value_lines (drop (number + 1) self.now.names) (drop (number + 1) self.now.values.items) in
            OnOk result (out.new.items ++ later ≡ out.old.items ++ lines) }
    {
        match self.values.get(number as usize) {
            Some(value) => append_line(alloc, out, self.names.text(number), *value),
            None => Ok(()),
        }
    }

    /// A line for each variable is added.
    pub fn append_lines(&self, alloc: Global, out: &mut Vec<u8>) -> Result<(), AllocError>
        ensures { OnOk result (out.new.items ≡ out.old.items ++ value_lines self.now.names self.now.values.items) }
    {
        for number in 0..self.names.len() {
            self.append_variable(alloc, out, number)?;
        }
        Ok(())
    }
}
