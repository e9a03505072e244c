use std::alloc::Global;
use std::test::Fail;
use tv_program::{Names, Program};

/// Three texts, one of them put twice, each with its number.
fn named(alloc: Global) -> Result<Names, Fail> {
    let mut names = Names::new(alloc);
    for (text, number) in [("x", 0), ("y", 1), ("x", 0), ("", 2)] {
        if names.len() >= 65536 {
            return Err(Fail::from("too many names"));
        }
        if names.put(text.as_bytes())? != number {
            return Err(Fail::from(text));
        }
    }
    Ok(names)
}

fn are_three(names: &Names) -> bool {
    !names.is_empty()
        && names.len() == 3
        && names.find(b"y") == Some(1)
        && names.find(b"z").is_none()
}

fn is_y(names: &Names) -> bool {
    if names.len() > 1 {
        names.text(1) == b"y".as_slice()
    } else {
        false
    }
}

fn are_copied(names: &Names) -> Result<bool, Fail> {
    let copy = names.copy()?;
    Ok(are_three(&copy) && is_y(&copy))
}

fn are_numbered(alloc: Global) -> Result<bool, Fail> {
    let names = named(alloc)?;
    Ok(are_three(&names) && is_y(&names) && are_copied(&names)?)
}

fn is_empty_at_first(alloc: Global) -> bool {
    Names::new(alloc).is_empty()
}

#[test]
fn texts_are_numbered_in_the_order_first_seen(rt: HostRuntime) -> Result<(), Fail> {
    assert!(rt; is_empty_at_first(rt.alloc()) && are_numbered(rt.alloc())?);
    Ok(())
}

/// No edges, over one variable x, from the location 7.
fn edgeless(alloc: Global) -> Result<Program, Fail> {
    let mut variables = Names::new(alloc);
    variables.put(b"x")?;
    let mut locations = Names::new(alloc);
    locations.put(b"7")?;
    Ok(Program::new(variables, locations, 0, Vec::new(alloc)))
}

fn is_edgeless(program: &Program) -> bool {
    program.variables().len() == 1
        && program.locations().find(b"7") == Some(0)
        && program.start() == 0
        && program.edges().is_empty()
}

#[test]
fn a_program_holds_what_it_was_made_of(rt: HostRuntime) -> Result<(), Fail> {
    let program = edgeless(rt.alloc())?;
    assert!(rt; is_edgeless(&program));
    Ok(())
}
