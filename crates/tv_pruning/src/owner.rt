use std::alloc::{AllocError, Global};
use tv_cases::Cases;
use tv_cert::{Aim, Mark, Marked};
use tv_formula::{Path, Shape};

/// Whose pieces the targets of a proof are.
#[derive(Clone, Copy)]
pub(crate) enum Owner {
    /// They are no pieces.
    Nobody,
    /// Those of the node itself.
    Own,
    /// Those of the child at this place.
    Child(usize),
    /// Those of all children, in order.
    Children,
}

/// The pieces among which the targets of a proof are counted.
#[derive(Clone, Copy)]
pub(crate) struct Among {
    pub owner: Owner,
    /// The location where they are; none where it is that to which the taken case leads.
    pub location: Option<u32>,
}

/// Puts one for each case from the location at the end of the list.
fn push_steps(
    about: &Cases,
    location: u32,
    owner: Owner,
    list: &mut Vec<Among>,
) -> Result<(), AllocError> {
    for case in about.list() {
        if case.from == location {
            let location = Some(case.to);
            list.push(Among { owner, location })?;
        }
    }
    Ok(())
}

/// Puts those of a piece that is done at the end of the list.
fn push_done(shape: Shape, location: Option<u32>, list: &mut Vec<Among>) -> Result<(), AllocError> {
    if let Shape::Release | Shape::Strong = shape {
        let owner = Owner::Child(0);
        list.push(Among { owner, location })?;
    }
    let owner = Owner::Child(1);
    list.push(Among { owner, location })?;
    Ok(())
}

/// Puts those of a piece that goes on at the end of the list.
fn push_onward(
    about: &Cases,
    path: Path,
    shape: Shape,
    location: u32,
    list: &mut Vec<Among>,
) -> Result<(), AllocError> {
    let held = match shape {
        Shape::Until | Shape::Weak => 0,
        Shape::Release | Shape::Strong => 1,
    };
    list.push(Among {
        owner: Owner::Child(held),
        location: Some(location),
    })?;
    if let Path::Any = path {
        list.push(Among {
            owner: Owner::Own,
            location: None,
        })?;
        return Ok(());
    }
    if let Shape::Until | Shape::Strong = shape {
        list.push(Among {
            owner: Owner::Nobody,
            location: None,
        })?;
    }
    push_steps(about, location, Owner::Own, list)
}

/// For each proof of the piece, in order, the pieces among which its targets are counted.
pub(crate) fn counted_among(
    alloc: Global,
    about: &Cases,
    aim: &Aim,
    piece: &Marked,
    children: usize,
) -> Result<Vec<Among>, AllocError> {
    let mut list = Vec::new(alloc);
    let here = piece.location();
    let location = Some(here);
    match aim {
        Aim::Rows(_) | Aim::Here(_) | Aim::Elsewhere(_) => {
            let owner = Owner::Nobody;
            list.push(Among { owner, location })?;
        }
        Aim::Ends => push_steps(about, here, Owner::Own, &mut list)?,
        Aim::NeverEnds => {
            let owner = Owner::Own;
            let location = None;
            list.push(Among { owner, location })?;
        }
        Aim::EachOf(_) => {
            for child in 0..children {
                let owner = Owner::Child(child);
                list.push(Among { owner, location })?;
            }
        }
        Aim::OneOf(_) => {
            let owner = Owner::Children;
            list.push(Among { owner, location })?;
        }
        Aim::After(Path::Every, _) => push_steps(about, here, Owner::Child(0), &mut list)?,
        Aim::After(Path::Any, _) => {
            let owner = Owner::Child(0);
            let location = None;
            list.push(Among { owner, location })?;
        }
        Aim::Along(path, shape, _, _) => match piece.mark() {
            Mark::Done => push_done(*shape, location, &mut list)?,
            Mark::Go => push_onward(about, *path, *shape, here, &mut list)?,
        },
    }
    Ok(list)
}
