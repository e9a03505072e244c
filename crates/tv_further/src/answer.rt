use tv_shape::Certificate;
use tv_walks::{Name, Spent};

/// A certificate that a further search found and the checker accepted.
#[derive(Drop)]
pub struct Further {
    pub certificate: Certificate,
    /// The search that found it.
    pub by: Name,
    /// What that search took, and those before it.
    pub spent: Spent,
}
