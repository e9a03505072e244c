ghost use Rattle.tv_linear.specs.Linear.{IsWithin};

/// The sum of `low` and of `high` times 2^126.
#[derive(Clone, Copy)]
pub(crate) struct Parts {
    pub high: i64,
    pub low: i128,
    pub ghost small: { IsWithin 126 low },
}
