// Areas, the steps between them, and ranks of them.

pub(crate) mod area;
pub(crate) mod changes;
pub(crate) mod covers;
pub(crate) mod cutting;
pub(crate) mod entering;
pub(crate) mod known;
pub(crate) mod leaving;
pub(crate) mod passage;
pub(crate) mod ranks;
pub(crate) mod reach;
pub(crate) mod shadow;
pub(crate) mod sides;
pub(crate) mod stages;
pub(crate) mod stopping;
pub(crate) mod taking;
pub(crate) mod terms;
