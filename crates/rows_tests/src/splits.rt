use crate::given::row;
use std::alloc::Global;
use std::test::Fail;
use tv_linear::{Choice, ChoiceTree, Cover, CoverTree};

fn nested(alloc: Global, splits: u32) -> Result<CoverTree, Fail> {
    let mut tree = CoverTree::Empty(Vec::new(alloc));
    for _ in 0..splits {
        let other = Box::new(alloc, CoverTree::Empty(Vec::new(alloc)))?;
        tree = CoverTree::Split(row(alloc, &[1], 0)?, other, Box::new(alloc, tree)?);
    }
    Ok(tree)
}

fn one_cover(alloc: Global, splits: u32) -> Result<Vec<Cover>, Fail> {
    let mut covers = Vec::new(alloc);
    covers.push(Cover::new(nested(alloc, splits)?).ok_or("deep")?)?;
    Ok(covers)
}

/// A split before a proof that there is no step.
fn before_no_step(alloc: Global, splits: u32) -> Result<ChoiceTree, Fail> {
    let none = Box::new(alloc, ChoiceTree::NoStep(one_cover(alloc, splits)?))?;
    let other = Box::new(alloc, ChoiceTree::Empty(Vec::new(alloc)))?;
    Ok(ChoiceTree::Split(row(alloc, &[1], 0)?, none, other))
}

#[test]
fn a_cover_has_at_most_128_splits_on_a_path(rt: HostRuntime) -> Result<(), Fail> {
    let cover = Cover::new(nested(rt.alloc(), 128)?).ok_or("deep")?;
    assert!(rt; matches!(cover.tree(), CoverTree::Split(..)));
    assert!(rt; Cover::new(nested(rt.alloc(), 129)?).is_none());
    Ok(())
}

#[test]
fn a_choice_has_at_most_128_splits_on_a_path(rt: HostRuntime) -> Result<(), Fail> {
    let choice = Choice::new(before_no_step(rt.alloc(), 127)?).ok_or("deep")?;
    assert!(rt; matches!(choice.tree(), ChoiceTree::Split(..)));
    assert!(rt; Choice::new(before_no_step(rt.alloc(), 128)?).is_none());
    Ok(())
}
