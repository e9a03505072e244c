use std::cmp::Ordering;
use std::process::Abort;
use tv_fraction::{Fraction, cmp, div, gcd, mul_sub};

/// The fraction of two numbers, which a test chose within the bounds.
fn fraction(rt: &impl Abort, numerator: i128, denominator: i128) -> Fraction {
    assert!(rt; denominator > 0);
    assert!(rt; numerator.unsigned_abs() < 1 << 126);
    assert!(rt; denominator.unsigned_abs() < 1 << 126);
    Fraction::new(numerator, denominator)
}

fn parts(fraction: &Fraction) -> (i128, i128) {
    (fraction.numerator(), fraction.denominator())
}

#[test]
fn brings_to_lowest_terms(rt: HostRuntime) {
    let cases: [((i128, i128), (i128, i128)); 6] = [
        ((6, 8), (3, 4)),
        ((-6, 8), (-3, 4)),
        ((0, 5), (0, 1)),
        ((7, 1), (7, 1)),
        ((1 << 125, 3 << 124), (2, 3)),
        ((-(1 << 125), 1 << 125), (-1, 1)),
    ];
    for ((numerator, denominator), want) in cases {
        let lowest = fraction(&rt, numerator, denominator);
        assert_eq!(rt; parts(&lowest), want, "{numerator}/{denominator}");
    }
}

#[test]
fn is_narrow_below_the_bound(rt: HostRuntime) {
    let bound = 1 << 40;
    let cases: [((i128, i128), bool); 7] = [
        ((bound - 1, 1), true),
        ((1 - bound, 1), true),
        ((1, bound - 1), true),
        ((bound, 1), false),
        ((-bound, 1), false),
        ((1, bound), false),
        ((bound, 2), true),
    ];
    for ((numerator, denominator), want) in cases {
        let fraction = fraction(&rt, numerator, denominator);
        assert_eq!(rt; fraction.is_narrow(), want, "{numerator}/{denominator}");
    }
}

#[test]
fn subtracts_products_exactly(rt: HostRuntime) {
    let wide = (1 << 40) - 1;
    let differences: [((i128, i128), (i128, i128), (i128, i128), (i128, i128)); 4] = [
        ((1, 2), (2, 3), (3, 4), (0, 1)),
        ((0, 1), (2, 3), (3, 5), (-2, 5)),
        ((-1, 6), (-1, 2), (1, 3), (0, 1)),
        ((wide, 1), (wide, 1), (-wide, 1), (wide + wide * wide, 1)),
    ];
    for (a, c, q, want) in differences {
        let a = fraction(&rt, a.0, a.1);
        let c = fraction(&rt, c.0, c.1);
        let q = fraction(&rt, q.0, q.1);
        assert!(rt; a.is_narrow() && c.is_narrow() && q.is_narrow());
        assert_eq!(rt; parts(&mul_sub(&a, &c, &q)), want);
    }
}

#[test]
fn divides_exactly(rt: HostRuntime) {
    let wide = (1 << 40) - 1;
    let quotients: [((i128, i128), (i128, i128), (i128, i128)); 5] = [
        ((1, 2), (3, 4), (2, 3)),
        ((1, 2), (-3, 4), (-2, 3)),
        ((-1, 2), (-1, 4), (2, 1)),
        ((0, 1), (-5, 7), (0, 1)),
        ((wide, 1), (-1, wide), (-(wide * wide), 1)),
    ];
    for (a, b, want) in quotients {
        let a = fraction(&rt, a.0, a.1);
        let b = fraction(&rt, b.0, b.1);
        assert!(rt; a.is_narrow() && b.is_narrow() && b.numerator() != 0);
        assert_eq!(rt; parts(&div(&a, &b)), want);
    }
}

#[test]
fn compares_by_value(rt: HostRuntime) {
    let wide = 1 << 79;
    let cases: [((i128, i128), (i128, i128), Ordering); 8] = [
        ((1, 2), (2, 4), Ordering::Equal),
        ((1, 2), (2, 3), Ordering::Less),
        ((-1, 2), (-2, 3), Ordering::Greater),
        ((-1, 2), (0, 1), Ordering::Less),
        ((1, 3), (-1, 2), Ordering::Greater),
        ((7, 2), (10, 3), Ordering::Greater),
        ((wide, wide + 1), (wide - 1, wide), Ordering::Greater),
        ((-wide, wide + 1), (1 - wide, wide), Ordering::Less),
    ];
    for (a, b, want) in cases {
        let first = fraction(&rt, a.0, a.1);
        let second = fraction(&rt, b.0, b.1);
        assert_eq!(rt; cmp(&first, &second), want, "{a:?} and {b:?}");
    }
}

#[test]
fn divides_in_common(rt: HostRuntime) {
    for (a, b, want) in [(12, 18, 6), (0, 5, 5), (7, 0, 7), (35, 64, 1)] {
        assert_eq!(rt; gcd(a, b), want, "{a} and {b}");
    }
}
