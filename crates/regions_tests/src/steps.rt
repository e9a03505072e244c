ghost use Rattle.std.specs.Prelude.{◌≤◌};

use crate::sample::{AMPLE, Lists, NOWHERE, ONE, ONE_OR_THREE, is, made, refused, region_of};
use std::alloc::Global;
use std::test::Fail;
use tv_cases::{Cases, cases};
use tv_linear::Region;
use tv_program::{Edge, Names, Program};
use tv_region::{before_any, before_every, fits};

/// A program of one variable and one location, whose one edge draws `draws` numbers and has no command.
fn idle(alloc: Global, draws: u32) -> Result<Program, Fail>
    requires { draws ≤ 2 }
{
    let mut variables = Names::new(alloc);
    variables.put(b"x")?;
    let mut locations = Names::new(alloc);
    locations.put(b"0")?;
    if variables.len() != 1 || locations.len() != 1 {
        return Err(Fail::from("the names were not put"));
    }
    let mut edges = Vec::new(alloc);
    edges.push(Edge {
        from: 0,
        to: 0,
        draws,
        commands: Vec::new(alloc),
    })?;
    Ok(Program::new(variables, locations, 0, edges))
}

/// The cases of the program with two draws, or without a draw.
fn about(alloc: Global, draws: bool) -> Result<Cases, Fail> {
    let program = if draws {
        idle(alloc, 2)?
    } else {
        idle(alloc, 0)?
    };
    match cases(alloc, &program) {
        Ok(cases) => Ok(cases),
        Err(_) => Err(Fail::from("the program has no cases")),
    }
}

fn some(alloc: Global, draws: bool, target: Lists) -> Result<Region, Fail> {
    let about = about(alloc, draws)?;
    let target = region_of(alloc, target)?;
    if !fits(&target, about.variables(), about.locations()) {
        return Err(Fail::from("the target does not fit"));
    }
    made(before_any(alloc, &about, &target, &AMPLE))
}

fn every(alloc: Global, draws: bool, target: Lists) -> Result<Region, Fail> {
    let about = about(alloc, draws)?;
    let target = region_of(alloc, target)?;
    if !fits(&target, about.variables(), about.locations()) {
        return Err(Fail::from("the target does not fit"));
    }
    made(before_every(alloc, &about, &target, &AMPLE))
}

#[test]
fn an_idle_step_leads_to_where_it_begins(rt: HostRuntime) -> Result<(), Fail> {
    for draws in [false, true] {
        let region = some(rt.alloc(), draws, ONE_OR_THREE)?;
        assert!(rt; is(&region, 2, &[1, 3]));
        let region = every(rt.alloc(), draws, ONE_OR_THREE)?;
        assert!(rt; is(&region, 2, &[1, 3]));
    }
    Ok(())
}

#[test]
fn no_step_leads_nowhere(rt: HostRuntime) -> Result<(), Fail> {
    for draws in [false, true] {
        let region = some(rt.alloc(), draws, NOWHERE)?;
        assert!(rt; is(&region, 0, &[]));
        let region = every(rt.alloc(), draws, NOWHERE)?;
        assert!(rt; is(&region, 0, &[]));
    }
    Ok(())
}

#[test]
fn too_many_pieces_before_steps_are_refused(rt: HostRuntime) -> Result<(), Fail> {
    let target = region_of(rt.alloc(), ONE_OR_THREE)?;
    for (draws, pieces) in [(false, 2), (true, 4)] {
        let about = about(rt.alloc(), draws)?;
        assert!(rt; fits(&target, about.variables(), about.locations()));
        assert!(rt; refused(&before_every(rt.alloc(), &about, &target, &ONE), pieces));
        assert!(rt; refused(&before_any(rt.alloc(), &about, &target, &ONE), 2));
    }
    Ok(())
}
