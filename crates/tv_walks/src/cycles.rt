// Closed walks that can be gone through again and again.

pub(crate) mod closed_cycles;
pub(crate) mod closing;
pub(crate) mod lasso;
pub(crate) mod stem;
pub(crate) mod walking;
pub(crate) mod way;
