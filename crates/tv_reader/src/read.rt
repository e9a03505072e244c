ghost use Rattle.std.specs.Prelude.{◌≡◌, ◌+◌, ◌^◌, ◌<◌, ◌≤◌, ℕ, List, length, None, IfOk, IfErr, MatchResult};
ghost use Rattle.tv_program.specs.Systems.{System};
ghost use Rattle.tv_program.specs.Programs.{system_of};
ghost use Rattle.tv_language.specs.Programs.{IsProgramText};
ghost use Rattle.tv_reader.specs.Readers.{IsSteady, ItemsFit};
ghost use Rattle.tv_reader.specs.FirstFaults.{IsRefused, IsReadAs, IsMade};
ghost use Rattle.tv_reader.specs.declared.fault.ReadFault.TheVariants as faults;

use crate::fault::ReadFault;
use crate::items::ItemsRead;
use crate::place::located;
use crate::reader::Reader;
use crate::words::{Known, known_words};
use std::alloc::Global;
use tv_language::scan;
use tv_program::Program;
use tv_reading::Reading;

/// The program of all items, if one of them is START.
fn finished(reader: Reader, items: ItemsRead) -> Result<Program, ReadFault>
    requires steady { IsSteady reader }
    requires bounded { length reader.labels ≤ 1024 }
    requires fits { ItemsFit reader items }
    ensures { MatchResult result (λ p. IsMade reader.entry items p) (λ e. (e ≡ faults.NoStart) × (items.start ≡ None)) }
{
    let ItemsRead { start, edges } = items;
    match start {
        Some(_) => Ok(Program::new(reader.reading.finish(), reader.labels, 0, edges)),
        None => Err(ReadFault::NoStart),
    }
}

/// Reads a program from its whole text.
///
/// The time is linear in the text.
pub fn read_program(alloc: Global, text: &[u8]) -> Result<Program, ReadFault>
    requires short { length text.now + 1 < 2 ^ 32 }
    // The text is that of the program.
    ensures found { IfOk result (λ program. IsProgramText text.now (system_of program)) }
    // The text of a program is read as this program.
    ensures only { (p : System) → IsProgramText text.now p → IsReadAs p result }
    // Else the first fault is reported, with the first kind of fault that it is.
    ensures refused { IfErr result (λ fault. IsRefused text.now fault) }
{
    let list = scan(alloc, text)?;
    let Known { variables, labels } = known_words(alloc, text, &list)?;
    let mut reader = Reader {
        alloc,
        text,
        labels,
        reading: Reading::new(alloc, text, &list, variables, true),
        behind_colon: false,
    };
    match reader.program() {
        Ok(items) => finished(reader, items),
        Err(reason) => {
            let token = reader.reading.peek();
            let place = reader.reading.place() as usize;
            Err(located(text, &list, place, token, reason))
        }
    }
}
