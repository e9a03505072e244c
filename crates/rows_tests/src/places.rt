use std::test::Fail;
use tv_places::{count_of, index, place_at};

const NUMBERS: [u32; 7] = [5, 0, 9, 5, u32::MAX, 0, 5];

// A number, which of its places is asked for, that place, and how often it stands there.
const CASES: [(u32, usize, Option<u32>, usize); 12] = [
    (0, 0, Some(1), 2),
    (0, 1, Some(5), 2),
    (0, 2, None, 2),
    (5, 0, Some(0), 3),
    (5, 1, Some(3), 3),
    (5, 2, Some(6), 3),
    (5, 3, None, 3),
    (9, 0, Some(2), 1),
    (9, 1, None, 1),
    (7, 0, None, 0),
    (u32::MAX, 0, Some(4), 1),
    (u32::MAX, usize::MAX, None, 1),
];

#[test]
fn places_are_found(rt: HostRuntime) -> Result<(), Fail> {
    let stands = index(rt.alloc(), &NUMBERS)?;
    assert_eq!(rt; stands.len(), NUMBERS.len());
    for (number, k, place, count) in CASES {
        assert!(rt; place_at(&stands, number, k) == place);
        assert_eq!(rt; count_of(&stands, number), count);
    }
    Ok(())
}

#[test]
fn an_empty_list_has_no_places(rt: HostRuntime) -> Result<(), Fail> {
    let stands = index(rt.alloc(), &[])?;
    assert!(rt; stands.is_empty());
    assert!(rt; place_at(&stands, 0, 0).is_none());
    assert_eq!(rt; count_of(&stands, 0), 0);
    Ok(())
}
