ghost use Rattle.std.specs.Prelude.{◌≡◌, ◌+◌, ◌<◌, ◌^◌, MatchResult};
ghost use Rattle.tv_cases.specs.Systems.{cases_of};
ghost use Rattle.tv_cert.specs.Nodes.{size};
ghost use Rattle.tv_cert.specs.AimViews.{aim_states};
ghost use Rattle.tv_shape.specs.Stations.{stations, AreRight, IsFirstMisshapen};

use crate::fault::ShapeFault;
use crate::nodes::look_at;
use tv_cases::Cases;
use tv_cert::{Aim, Node, part};

/// The first fault of the node and of those below it, or the next node's number.
pub fn walk(
    about: &Cases,
    aim: &Aim,
    number: u32,
    depth: u32,
    node: &Node,
) -> Result<u32, ShapeFault>
    requires { number + size node.now < 2 ^ 32 }
    ensures { let system = cases_of about.now in
        let states = aim_states aim.now in
        let stops = stations number depth states node.now in
        MatchResult result (λ next. AreRight system stops × (next ≡ number + size node.now)) (IsFirstMisshapen system stops) }
{
    match look_at(about, aim, number, depth, node) {
        Err(fault) => return Err(fault),
        Ok(()) => {}
    }
    let mut next = number + 1;
    for (i, child) in node.children.iter().enumerate() {
        match walk(about, part(aim, i), next, depth + 1, child) {
            Err(fault) => return Err(fault),
            Ok(after) => next = after,
        }
    }
    Ok(next)
}
