use crate::entering::Target;
use crate::marks::Marks;
use crate::owner::Owner;

/// Which pieces of a node and of its children stay, so that a target is counted among those.
#[derive(Clone, Copy)]
pub(crate) struct Numbering<'a> {
    pub own: &'a Marks,
    pub children: &'a [Marks],
}

impl Numbering<'_> {
    /// The number of a target that is counted over all children.
    fn number_in_children(self, target: Target) -> u32 {
        let mut before: u32 = 0;
        let mut number = target.number as usize;
        for child in self.children {
            let count = child.count_at(target.location);
            if number < count {
                return before.saturating_add(child.needed_among(target.location, number));
            }
            before = before.saturating_add(child.needed_among(target.location, count));
            number = number.saturating_sub(count);
        }
        before
    }

    /// The number of the target among the pieces that stay.
    pub(crate) fn number_of(self, owner: Owner, target: Target) -> u32 {
        let Target { location, number } = target;
        match owner {
            Owner::Nobody => number,
            Owner::Own => self.own.needed_among(location, number as usize),
            Owner::Child(place) => match self.children.get(place) {
                None => number,
                Some(child) => child.needed_among(location, number as usize),
            },
            Owner::Children => self.number_in_children(target),
        }
    }
}
