use crate::sample::{
    AMPLE, AROUND_ONE, BELOW_FIVE, DOUBLED, JUST_ONE, Lists, NEVER, NOWHERE, ONE, ONE_OR_THREE,
    TWICE, is, made, refused, region_of,
};
use std::alloc::Global;
use std::test::Fail;
use tv_linear::Region;
use tv_region::{both, complement, either, fits};

fn met(alloc: Global, a: Lists, b: Lists) -> Result<Region, Fail> {
    let a = region_of(alloc, a)?;
    let b = region_of(alloc, b)?;
    if !fits(&a, 1, 1) || !fits(&b, 1, 1) {
        return Err(Fail::from("a region is not over one variable and one location"));
    }
    made(both(alloc, &a, &b, &AMPLE))
}

fn joined(alloc: Global, a: Lists, b: Lists) -> Result<Region, Fail> {
    let a = region_of(alloc, a)?;
    let b = region_of(alloc, b)?;
    if !fits(&a, 1, 1) || !fits(&b, 1, 1) {
        return Err(Fail::from("a region is not over one variable and one location"));
    }
    made(either(alloc, &a, &b, &AMPLE))
}

fn denied(alloc: Global, a: Lists) -> Result<Region, Fail> {
    let a = region_of(alloc, a)?;
    if !fits(&a, 1, 1) {
        return Err(Fail::from("a region is not over one variable and one location"));
    }
    made(complement(alloc, &a, &AMPLE))
}

/// Two regions, and the pieces and the values of what both have.
const MEETS: &[(Lists, Lists, usize, &[i128])] = &[
    (BELOW_FIVE, ONE_OR_THREE, 2, &[1, 3]),
    (ONE_OR_THREE, ONE_OR_THREE, 2, &[1, 3]),
    (NEVER, BELOW_FIVE, 0, &[]),
    (NOWHERE, BELOW_FIVE, 0, &[]),
];

#[test]
fn both_have_what_each_has(rt: HostRuntime) -> Result<(), Fail> {
    for (a, b, pieces, values) in MEETS {
        let region = met(rt.alloc(), *a, *b)?;
        assert!(rt; is(&region, *pieces, *values));
    }
    Ok(())
}

const UP_TO_FOUR: &[i128] = &[-9, -8, -7, -6, -5, -4, -3, -2, -1, 0, 1, 2, 3, 4];

#[test]
fn pieces_inside_others_are_dropped(rt: HostRuntime) -> Result<(), Fail> {
    let alloc = rt.alloc();
    for (a, b) in [
        (BELOW_FIVE, ONE_OR_THREE),
        (TWICE, TWICE),
        (NEVER, BELOW_FIVE),
        (NOWHERE, TWICE),
        (BELOW_FIVE, DOUBLED),
        (DOUBLED, BELOW_FIVE),
    ] {
        let region = joined(alloc, a, b)?;
        assert!(rt; is(&region, 1, UP_TO_FOUR));
    }
    Ok(())
}

#[test]
fn pieces_with_the_same_whole_points_stand_once(rt: HostRuntime) -> Result<(), Fail> {
    for (a, b) in [(JUST_ONE, AROUND_ONE), (AROUND_ONE, JUST_ONE)] {
        let region = joined(rt.alloc(), a, b)?;
        assert!(rt; is(&region, 1, &[1]));
    }
    Ok(())
}

#[test]
fn the_complement_has_the_others(rt: HostRuntime) -> Result<(), Fail> {
    let alloc = rt.alloc();
    let rest = denied(alloc, ONE_OR_THREE)?;
    assert!(rt;
        is(
            &rest,
            3,
            &[-9, -8, -7, -6, -5, -4, -3, -2, -1, 0, 2, 4, 5, 6, 7, 8, 9]
        )
    );
    let rest = denied(alloc, TWICE)?;
    assert!(rt; is(&rest, 1, &[5, 6, 7, 8, 9]));
    Ok(())
}

#[test]
fn too_many_pieces_are_refused(rt: HostRuntime) -> Result<(), Fail> {
    let alloc = rt.alloc();
    let a = region_of(alloc, ONE_OR_THREE)?;
    assert!(rt; fits(&a, 1, 1));
    assert!(rt; refused(&either(alloc, &a, &a, &ONE), 4));
    assert!(rt; refused(&both(alloc, &a, &a, &ONE), 4));
    assert!(rt; refused(&complement(alloc, &a, &ONE), 4));
    Ok(())
}
