ghost use Rattle.std.specs.Prelude.{◌≡◌, ◌<◌};
ghost use Rattle.tv_cert.specs.Statements.{count, part_at, parts_of};
ghost use Rattle.tv_cert.specs.AimViews.{aim_states, aims_state};

use crate::aim::Aim;

fn nth(parts: &[Aim], i: usize) -> &Aim
    requires { i < count (aims_state parts.now) }
    ensures { aim_states result.now ≡ part_at i (aims_state parts.now) }
{
    match parts.get(i) {
        Some(part) => part,
        None => unreachable!(),
    }
}

/// What child `i` of a node is to show.
pub fn part(aim: &Aim, i: usize) -> &Aim
    requires { i < count (parts_of (aim_states aim.now)) }
    ensures { aim_states result.now ≡ part_at i (parts_of (aim_states aim.now)) }
{
    match aim {
        Aim::EachOf(parts) => nth(parts, i),
        Aim::OneOf(parts) => nth(parts, i),
        Aim::After(_, inner) => inner,
        Aim::Along(_, _, first, second) => if i == 0 { first } else { second },
        _ => unreachable!(),
    }
}
