// Graphs of single states.

pub(crate) mod chance;
pub(crate) mod choosing;
pub(crate) mod expanding;
pub(crate) mod explicit;
pub(crate) mod fixed;
pub(crate) mod graph;
pub(crate) mod holding;
pub(crate) mod lines;
pub(crate) mod made;
pub(crate) mod making;
pub(crate) mod proving;
pub(crate) mod rounds;
pub(crate) mod rule;
pub(crate) mod selecting;
pub(crate) mod spot;
pub(crate) mod starting;
pub(crate) mod walks;
