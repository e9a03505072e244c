use tv_cert::Node;
use tv_linear::Region;

/// Where a formula holds, as far as it is known, and the node that shows it: the pieces of the node are those of the region, in order.
#[derive(Drop)]
pub struct Part {
    pub region: Region,
    pub node: Node,
}
