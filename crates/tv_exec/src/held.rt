//! Arithmetic that says where an `i128` does not hold a result.

ghost use Rattle.std.specs.Prelude.{◌≡◌, ◌+ℤ◌, ◌*ℤ◌, neg_ℤ};
ghost use Rattle.tv_exec.specs.Given.{held};

pub(crate) fn opposite(number: i128) -> Option<i128>
    ensures { result ≡ held (neg_ℤ number) }
{
    number.checked_neg()
}

pub(crate) fn sum(left: i128, right: i128) -> Option<i128>
    ensures { result ≡ held (left +ℤ right) }
{
    left.checked_add(right)
}

pub(crate) fn product(left: i128, right: i128) -> Option<i128>
    ensures { result ≡ held (left *ℤ right) }
{
    left.checked_mul(right)
}
