ghost use Rattle.std.specs.Prelude.{◌≡◌, ◌+◌, ◌^◌, ◌<◌};
ghost use Rattle.tv_cases.specs.Systems.{cases_of};
ghost use Rattle.tv_cert.specs.AimViews.{aim_states};
ghost use Rattle.tv_cert.specs.declared.node.Kind.TheVariants as kinds;
ghost use Rattle.tv_cert_reader.specs.Texts.{sides_of};
ghost use Rattle.tv_check_text.specs.Settling.{first_failing};
ghost use Rattle.tv_check_text.specs.Verdicts.{IsFresh, ChecksProved, ChecksDenied, ChecksWhole};

use crate::checker::Checker;
use crate::proof::start_is_covered;
use crate::visiting::first_failing;
use tv_cert::{Aim, Claim, Failing, Kind};
use tv_cert_reader::{
    Context, Failure, LineKind, NumberLine, Walk, finish, numbers, says_proved, values,
};

/// Takes note of the last obligation, which is the root's.
fn settle_root(checker: &mut Checker, met: bool)
    requires { checker.old.seen < 2 ^ 32 }
    ensures seen { checker.new.seen ≡ checker.old.seen + 1 }
    ensures failing { checker.new.failing ≡ first_failing checker.old.failing met
        (record { number = checker.old.seen + 1; node = 0; kind = kinds.Root }) }
{
    let number = checker.seen + 1;
    let failing = Failing {
        number,
        node: 0,
        kind: Kind::Root,
    };
    checker.failing = first_failing(checker.failing, met, failing);
    checker.seen = number;
}

/// Reads and checks what follows the line that says that the property is proved.
fn check_proved(context: &Context, walk: &mut Walk<Checker>, aim: &Aim) -> Result<(), Failure>
    requires { IsFresh walk.old }
    ensures { ChecksProved (cases_of context.now.about.now) (aim_states aim.now) walk.old walk.new.taker result }
{
    let root = walk.node(context.about, aim)?;
    let met = start_is_covered(context, &mut walk.cursor, &root.pieces)?;
    settle_root(&mut walk.taker, met);
    numbers(context.alloc, &mut walk.cursor, NumberLine::End, 0)?;
    finish(context.alloc, &mut walk.cursor)?;
    Ok(())
}

/// Reads and checks what follows the line that says that the property is disproved; the values at which it is.
fn check_denied(
    context: &Context,
    walk: &mut Walk<Checker>,
    aim: &Aim,
) -> Result<Vec<i128>, Failure>
    requires { IsFresh walk.old }
    ensures { ChecksDenied (cases_of context.now.about.now) (aim_states aim.now) walk.old walk.new.taker result }
{
    let about = context.about;
    let root = walk.node(about, aim)?;
    let (place, values) = values(context.alloc, &mut walk.cursor, about.variables())?;
    if place >= 1 << 32 {
        return Err(Failure::Fault(LineKind::Shape, walk.cursor.taken));
    }
    let piece = place as u32;
    if root.pieces.at(about.start(), piece).is_none() {
        return Err(Failure::Fault(LineKind::Shape, walk.cursor.taken));
    }
    let met = root.pieces.hold(about.start(), piece, &values);
    settle_root(&mut walk.taker, met);
    numbers(context.alloc, &mut walk.cursor, NumberLine::End, 0)?;
    finish(context.alloc, &mut walk.cursor)?;
    Ok(values)
}

/// Reads and checks a whole certificate of what is claimed; the values at which it is disproved, if it is.
pub fn check_whole(
    context: &Context,
    walk: &mut Walk<Checker>,
    claim: &Claim,
) -> Result<Option<Vec<i128>>, Failure>
    requires fresh { IsFresh walk.old }
    ensures { ChecksWhole (cases_of context.now.about.now) (sides_of claim.now) walk.old walk.new.taker result }
{
    numbers(context.alloc, &mut walk.cursor, NumberLine::Header, 0)?;
    if says_proved(context.alloc, &mut walk.cursor)? {
        check_proved(context, walk, claim.proved_aim())?;
        Ok(None)
    } else {
        let values = check_denied(context, walk, claim.denied_aim())?;
        Ok(Some(values))
    }
}
