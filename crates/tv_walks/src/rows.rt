// Rows made of others, and what the solver says of them.

pub(crate) mod combining;
pub(crate) mod conditions;
pub(crate) mod drawing;
pub(crate) mod solving;
pub(crate) mod values;
