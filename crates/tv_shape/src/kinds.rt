ghost use Rattle.std.specs.Prelude.{◌≡◌, ◌++◌, ◌∷◌, [], IfOk};
ghost use Rattle.tv_cert.specs.AimViews.{aim_states, aims_state};
ghost use Rattle.tv_shape.specs.Kinds.{kinds_stated, all_kinds};

use std::alloc::{AllocError, Global};
use tv_cert::Aim;
use tv_lines::NodeKind;

/// Puts one kind after the others.
fn push_kind(kinds: &mut Vec<NodeKind>, kind: NodeKind) -> Result<(), AllocError>
    ensures { IfOk result (λ _. kinds.new.items ≡ kinds.old.items ++ kind ∷ []) }
{
    kinds.push(kind)?;
    Ok(())
}

/// Puts the kind of the node of an aim and of those below it after the others, each before its children.
#[cycle(kinds)]
fn push_kinds(kinds: &mut Vec<NodeKind>, aim: &Aim) -> Result<(), AllocError>
    ensures { IfOk result (λ _. kinds.new.items ≡ kinds.old.items ++ kinds_stated (aim_states aim.now)) }
{
    match aim {
        Aim::Rows(_) | Aim::Here(_) | Aim::Elsewhere(_) => push_kind(kinds, NodeKind::Atom),
        Aim::Ends => push_kind(kinds, NodeKind::Term),
        Aim::NeverEnds => push_kind(kinds, NodeKind::NoTerm),
        Aim::EachOf(parts) => {
            push_kind(kinds, NodeKind::And)?;
            push_all_kinds(kinds, parts)
        }
        Aim::OneOf(parts) => {
            push_kind(kinds, NodeKind::Or)?;
            push_all_kinds(kinds, parts)
        }
        Aim::After(_, inner) => {
            push_kind(kinds, NodeKind::Next)?;
            push_kinds(kinds, inner)
        }
        Aim::Along(_, _, first, second) => {
            push_kind(kinds, NodeKind::Fix)?;
            push_kinds(kinds, first)?;
            push_kinds(kinds, second)
        }
    }
}

/// Puts the kinds of all of the aims after the others.
#[cycle(kinds)]
fn push_all_kinds(kinds: &mut Vec<NodeKind>, aims: &[Aim]) -> Result<(), AllocError>
    ensures { IfOk result (λ _. kinds.new.items ≡ kinds.old.items ++ all_kinds (aims_state aims.now)) }
{
    for aim in aims {
        push_kinds(kinds, aim)?;
    }
    Ok(())
}

/// The kinds of the nodes of an aim, each before its children.
pub fn kinds_of(alloc: Global, aim: &Aim) -> Result<Vec<NodeKind>, AllocError>
    ensures { IfOk result (λ kinds. kinds.items ≡ kinds_stated (aim_states aim.now)) }
{
    let mut kinds = Vec::new(alloc);
    push_kinds(&mut kinds, aim)?;
    Ok(kinds)
}
