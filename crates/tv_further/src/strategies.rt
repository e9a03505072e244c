// Until over some path, by strategies.

pub(crate) mod favouring;
pub(crate) mod link;
pub(crate) mod plan;
pub(crate) mod splitting;
pub(crate) mod strategy;
pub(crate) mod strategy_draft;
pub(crate) mod strategy_order;
pub(crate) mod strategy_proofs;
