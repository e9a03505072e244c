ghost use Rattle.std.specs.Prelude.{◌≡◌, ◌+◌, ◌<◌, ◌^◌, length, MatchResult};
ghost use Rattle.tv_cases.specs.Systems.{cases_of};
ghost use Rattle.tv_cert.specs.Obligations.{AllMet};
ghost use Rattle.tv_cert.specs.Nodes.{size, node_entries, own_entries, HasParts};
ghost use Rattle.tv_cert.specs.AimViews.{aim_states};
ghost use Rattle.tv_cert.specs.FirstFailing.{IsFirstFailing};

use crate::settler::Settler;
use tv_cases::Cases;
use tv_cert::{Aim, Failing, Node, part, visit_pieces};

/// The first of the node's own obligations that is not met, or how many obligations have been seen.
fn settle_node(
    about: &Cases,
    aim: &Aim,
    number: u32,
    node: &Node,
    seen: u64,
) -> Result<u64, Failing>
    requires { seen + length (own_entries number (cases_of about.now) (aim_states aim.now) node.now) < 2 ^ 64 }
    ensures { let system = cases_of about.now in
        let states = aim_states aim.now in
        let entries = own_entries number system states node.now in
        MatchResult result (λ n. AllMet entries × (n ≡ seen + length entries)) (λ f. IsFirstFailing entries seen f) }
{
    let mut settler = Settler {
        seen,
        proofs: &node.proofs,
        failing: None,
    };
    if visit_pieces(
        &mut settler,
        about,
        number,
        aim,
        &node.pieces,
        &node.children,
    ) {
        return Ok(settler.seen);
    }
    match settler.failing {
        Some(failing) => Err(failing),
        None => unreachable!(),
    }
}

/// The first obligation of the node and of those below it that is not met, or how many have been seen, and the next node's number.
pub fn walk(
    about: &Cases,
    aim: &Aim,
    number: u32,
    node: &Node,
    from: u64,
) -> Result<(u64, u32), Failing>
    requires parts { HasParts (aim_states aim.now) node.now }
    requires room { from + length (node_entries number (cases_of about.now) (aim_states aim.now) node.now) < 2 ^ 64 }
    requires nodes { number + size node.now < 2 ^ 32 }
    ensures { let system = cases_of about.now in
        let states = aim_states aim.now in
        let entries = node_entries number system states node.now in
        MatchResult result
        (λ p. AllMet entries × (p.0 ≡ from + length entries) × (p.1 ≡ number + size node.now))
        (λ f. IsFirstFailing entries from f) }
{
    let mut seen = from;
    let mut next = number + 1;
    for (i, child) in node.children.iter().enumerate() {
        match walk(about, part(aim, i), next, child, seen) {
            Err(failing) => return Err(failing),
            Ok((more, after)) => {
                seen = more;
                next = after;
            }
        }
    }
    match settle_node(about, aim, number, node, seen) {
        Err(failing) => Err(failing),
        Ok(more) => Ok((more, next)),
    }
}
