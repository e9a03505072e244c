use tv_cert::Failing;

/// What checks obligations, one after another.
#[derive(Drop)]
pub struct Checker {
    /// How many were checked.
    pub seen: u64,
    /// The first of them that is not met.
    pub failing: Option<Failing>,
}
