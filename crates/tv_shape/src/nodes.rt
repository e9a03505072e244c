ghost use Rattle.std.specs.Prelude.{◌≡◌, ◌↔◌, ◌<◌, ◌^◌, ℕ, IsTrue, MatchResult, length, map};
ghost use Rattle.std.specs.List.{AllZip};
ghost use Rattle.tv_cases.specs.Systems.{cases_of};
ghost use Rattle.tv_cert.specs.AimViews.{aim_states, aims_state};
ghost use Rattle.tv_cert.specs.NodeViews.{pieces_list};
ghost use Rattle.tv_cert.specs.Nodes.{node_owes};
ghost use Rattle.tv_cert.specs.Shapes.{ProofShape, OwnShape, may_be_done, may_rank};
ghost use Rattle.tv_cert.specs.Statements.{Statement, count, parts_of};
ghost use Rattle.tv_shape.specs.Parts.{children_of, proofs_of, ranks_at};
ghost use Rattle.tv_shape.specs.Stations.{IsShaped, IsShallow, IsRight, IsFaultAt, station};

use crate::depths::proofs_go_within;
use crate::fault::ShapeFault;
use crate::narrow::parts_are_narrow;
use crate::pieces::piece_has_shape;
use crate::shaper::Shaper;
use tv_cases::Cases;
use tv_cert::{Aim, Node, visit_pieces};
use tv_formula::Shape;

/// How deep the nodes and the splits of their proofs may lie. The root has depth 1.
pub const MAX_DEPTH: u32 = 384;

/// Whether pieces may be done.
pub fn may_be_done(aim: &Aim) -> bool
    ensures { result ≡ may_be_done (aim_states aim.now) }
{
    matches!(aim, Aim::Along(..))
}

/// Whether pieces may have ranks.
pub fn may_rank(aim: &Aim) -> bool
    ensures { result ≡ may_rank (aim_states aim.now) }
{
    matches!(
        aim,
        Aim::Ends | Aim::Along(_, Shape::Until | Shape::Strong, _, _)
    )
}

/// How many aims there are.
fn part_count(parts: &[Aim]) -> usize
    ensures { result ≡ count (aims_state parts.now) }
{
    parts.len()
}

/// How many arguments it has.
pub fn argument_count(aim: &Aim) -> usize
    ensures { result ≡ count (parts_of (aim_states aim.now)) }
{
    match aim {
        Aim::EachOf(parts) => part_count(parts),
        Aim::OneOf(parts) => part_count(parts),
        Aim::After(..) => 1,
        Aim::Along(..) => 2,
        _ => 0,
    }
}

/// Whether the proofs have the shapes that the node owes, one each, in order.
fn proofs_have_shape(about: &Cases, aim: &Aim, node: &Node) -> bool
    requires { length (pieces_list node.now) < 2 ^ 63 }
    ensures { let system = cases_of about.now in
        let states = aim_states aim.now in
        let owed = node_owes 0 system states (pieces_list node.now) (map pieces_list (children_of node.now)) in
        IsTrue result ↔ AllZip (λ o p. ProofShape o.owed p) owed (proofs_of node.now) }
{
    let mut shaper = Shaper {
        proofs: &node.proofs,
    };
    if !visit_pieces(&mut shaper, about, 0, aim, &node.pieces, &node.children) {
        return false;
    }
    shaper.proofs.is_empty()
}

/// Whether the node's own parts have the shape that its aim asks for.
fn has_own_parts(about: &Cases, aim: &Aim, node: &Node) -> bool
    ensures { let system = cases_of about.now in
        let states = aim_states aim.now in
        let below = map pieces_list (children_of node.now) in
        IsTrue result ↔ OwnShape system states (ranks_at node.now) (pieces_list node.now) below (proofs_of node.now) }
{
    let done = may_be_done(aim);
    (node.ranks == 0 || may_rank(aim))
        && node
            .pieces
            .list()
            .iter()
            .all(|piece| piece_has_shape(about, piece, node.ranks, done))
        && proofs_have_shape(about, aim, node)
}

/// Whether nothing but its depth is at fault at the node.
fn is_shaped(about: &Cases, aim: &Aim, node: &Node) -> bool
    ensures { (number depth : ℕ) → IsTrue result ↔ IsShaped (cases_of about.now) (station number depth (aim_states aim.now) node.now) }
{
    node.children.len() == argument_count(aim)
        && has_own_parts(about, aim, node)
        && parts_are_narrow(node)
}

/// Whether neither the node nor a split of its proofs lies too deep.
fn is_shallow(depth: u32, node: &Node) -> bool
    ensures { (number : ℕ) → (aim : Statement) → IsTrue result ↔ IsShallow (station number depth aim node.now) }
{
    depth <= MAX_DEPTH && proofs_go_within(&node.proofs, MAX_DEPTH - depth)
}

/// What is at fault at the node itself.
pub fn look_at(
    about: &Cases,
    aim: &Aim,
    number: u32,
    depth: u32,
    node: &Node,
) -> Result<(), ShapeFault>
    ensures { let system = cases_of about.now in
        let states = aim_states aim.now in
        MatchResult result (λ _. IsRight system (station number depth states node.now)) (IsFaultAt system (station number depth states node.now)) }
{
    if !is_shallow(depth, node) {
        Err(ShapeFault::Deep { node: number })
    } else if !is_shaped(about, aim, node) {
        Err(ShapeFault::Shape { node: number })
    } else {
        Ok(())
    }
}
