// What the proofs of a node enter.

use crate::marks::Marks;
use crate::owner::{Among, Owner};
use std::alloc::AllocError;
use tv_cases::Cases;
use tv_cert::Proof;
use tv_linear::{ChoiceTree, CoverTree};

/// A piece that is entered: its number among those at its location.
#[derive(Clone, Copy)]
pub(crate) struct Target {
    pub location: u32,
    pub number: u32,
}

/// Puts the targets of a cover at the location at the end of the list.
pub(crate) fn push_covered(
    tree: &CoverTree,
    location: u32,
    list: &mut Vec<Target>,
) -> Result<(), AllocError> {
    match tree {
        CoverTree::Split(_, holds, fails) => {
            push_covered(holds, location, list)?;
            push_covered(fails, location, list)
        }
        CoverTree::Empty(_) => Ok(()),
        CoverTree::Into { target, .. } => {
            let number = *target;
            list.push(Target { location, number })?;
            Ok(())
        }
    }
}

/// Where the case at this place leads.
pub(crate) fn led_to(about: &Cases, taken: u32) -> Option<u32> {
    let case = about.list().get(taken as usize)?;
    Some(case.to)
}

/// Puts the targets of a choice at the end of the list.
fn push_chosen(about: &Cases, tree: &ChoiceTree, list: &mut Vec<Target>) -> Result<(), AllocError> {
    match tree {
        ChoiceTree::Split(_, holds, fails) => {
            push_chosen(about, holds, list)?;
            push_chosen(about, fails, list)
        }
        ChoiceTree::Empty(_) | ChoiceTree::NoStep(_) => Ok(()),
        ChoiceTree::Take { taken, target, .. } => {
            if let Some(location) = led_to(about, *taken) {
                let number = *target;
                list.push(Target { location, number })?;
            }
            Ok(())
        }
    }
}

/// Puts the targets of a proof at the end of the list.
pub(crate) fn push_targets(
    about: &Cases,
    among: Among,
    proof: &Proof,
    list: &mut Vec<Target>,
) -> Result<(), AllocError> {
    match (proof, among.location) {
        (Proof::Covered(cover), Some(location)) => push_covered(cover.tree(), location, list),
        (Proof::Covered(_), None) => Ok(()),
        (Proof::Chosen(choice), _) => push_chosen(about, choice.tree(), list),
    }
}

/// Marks the piece of a target that is counted over all children.
fn mark_in_children(target: Target, children: &mut [Marks]) {
    let location = target.location;
    let mut number = target.number;
    for child in children {
        let count = child.count_at(location);
        if (number as usize) < count {
            let _ = child.mark(Target { location, number });
            return;
        }
        number = number.saturating_sub(count as u32);
    }
}

/// Marks the piece of a target; its place, where it is one of the node's own and was not marked before.
pub(crate) fn mark_target(
    owner: Owner,
    target: Target,
    own: &mut Marks,
    children: &mut [Marks],
) -> Option<usize> {
    match owner {
        Owner::Nobody => None,
        Owner::Own => own.mark(target),
        Owner::Child(place) => {
            if let Some(child) = children.get_mut(place) {
                let _ = child.mark(target);
            }
            None
        }
        Owner::Children => {
            mark_in_children(target, children);
            None
        }
    }
}
