ghost use Rattle.std.specs.Prelude.{◌+◌, ◌<◌, ◌^◌, SomeIff};
ghost use Rattle.tv_cert.specs.Nodes.{size};
ghost use Rattle.tv_shape.specs.Amounts.{proofs_below};

use tv_cert::Node;

/// How many nodes there are: the node and those below it; `None` where they are 2^32 or more.
pub fn node_count(node: &Node) -> Option<u32>
    ensures { SomeIff result (size node.now < 2 ^ 32) (size node.now) }
{
    let mut count: u32 = 1;
    for child in &node.children {
        match node_count(child) {
            None => return None,
            Some(more) => match count.checked_add(more) {
                None => return None,
                Some(sum) => count = sum,
            },
        }
    }
    Some(count)
}

/// How many proofs the node and those below it hold; `None` where they are 2^64 or more.
fn proof_count(node: &Node) -> Option<u64>
    ensures { SomeIff result (proofs_below node.now < 2 ^ 64) (proofs_below node.now) }
{
    let mut count = node.proofs.len() as u64;
    for child in &node.children {
        match proof_count(child) {
            None => return None,
            Some(more) => match count.checked_add(more) {
                None => return None,
                Some(sum) => count = sum,
            },
        }
    }
    Some(count)
}

/// How many obligations a certificate has of these nodes, where each has a proof, and the root has one more; `None` where they are
/// 2^64 or more.
pub fn obligation_count(root: &Node) -> Option<u64>
    ensures { SomeIff result (proofs_below root.now + 1 < 2 ^ 64) (proofs_below root.now + 1) }
{
    match proof_count(root) {
        None => None,
        Some(count) => count.checked_add(1),
    }
}
