//! The bytes that have passed. Only contracts read them.
ghost use Rattle.std.specs.Prelude.{◌≡◌, ◌++◌, ℕ, List, []};
ghost use Rattle.std.specs.Borrow.{ftrue};

use std::marker::{Model, PhantomData};

/// It takes no memory, and its methods do nothing at run time.
#[derive(Drop)]
pub(crate) struct Passed {
    marker: PhantomData<u8>,
    pub ghost bytes: { List ℕ },
}

impl Model for Passed {
    ghost also_owns = { λ _. ftrue };
}

impl Passed {
    pub(crate) fn new() -> Passed
        ensures { result.bytes ≡ [] }
    {
        Passed {
            marker: PhantomData,
        }
    }

    /// These bytes have passed, after the others.
    pub(crate) fn add(&mut self, _bytes: &[u8])
        ensures { self.new.bytes ≡ self.old.bytes ++ _bytes.now }
    {}
}
