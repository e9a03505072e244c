ghost use Rattle.std.specs.Prelude.{◌≡◌, ◌+◌, ◌^◌, ◌<◌, ◌≤◌, ◌∷◌, ◌++◌, ℕ, [], length, take, drop, get_or, pos, IfOk};
ghost use Rattle.tv_linear.specs.Arithmetic.{zeros};
ghost use Rattle.tv_simplex.specs.Entries.{AreOrdered, AreKept};

use std::alloc::{AllocError, Global};
use std::marker::Model;

/// A number that is kept, and its place.
#[derive(Clone, Copy)]
pub struct Kept {
    pub place: usize,
    pub number: i128,
}

/// The entries of linear equations, row by row. Only those that are not 0 are kept.
#[derive(Drop)]
pub struct Entries {
    kept: Vec<Kept>,
    length: usize,
}

impl Model for Entries {
    ghost use Rattle.std.specs.Prelude.{List, ℤ};
    ghost use Rattle.tv_simplex.specs.Entries.{AreOrdered, dense};

    ghost Value = { List ℤ };

    ghost view = { λ e. dense e.kept.items e.length };

    ghost invariant = { λ e. AreOrdered 0 e.length e.kept.items };
}

/// How many of the numbers stand before the place. Each has a place of its own, so where at most `most` places lie from
/// the first number's to this one, only the first `most` numbers are searched.
fn count_before(kept: &[Kept], place: usize, most: usize) -> usize
    ensures inside { result ≤ length kept.now }
    ensures front { (first end : ℕ) → AreOrdered first end kept.now → AreOrdered first place (take result kept.now) }
    ensures back { (first end : ℕ) → AreOrdered first end kept.now → place ≤ first + most → AreOrdered place end (drop result kept.now) }
{
    let (near, _) = kept.split_at(most.min(kept.len()));
    near.partition_point(|kept| kept.place < place)
}

impl Entries {
    /// No entries. It takes no memory; the allocator serves later ones.
    pub fn new(alloc: Global) -> Entries
        ensures { result ≡ [] }
    {
        Entries {
            kept: Vec::new(alloc),
            length: 0,
        }
    }

    /// How many entries there are, with those that are 0.
    pub fn len(&self) -> usize
        ensures { result ≡ length self.now }
    {
        self.length
    }

    /// Puts a number at the end. One that is 0 takes no memory.
    pub fn push(&mut self, number: i128) -> Result<(), AllocError>
        requires { length self.old < 2 ^ 32 }
        ensures { IfOk result (λ _. self.new ≡ self.old ++ number ∷ []) }
    {
        if number == 0 {
            self.push_zeros(1);
            return Ok(());
        }
        self.kept.push(Kept {
            place: self.length,
            number,
        })?;
        self.length += 1;
        Ok(())
    }

    /// Puts `count` zeros at the end. It takes no memory, and no time for each.
    pub fn push_zeros(&mut self, count: u32)
        requires { length self.old < 2 ^ 32 }
        ensures { self.new ≡ self.old ++ zeros count }
    {
        self.length += count as usize;
    }

    /// The numbers that are kept of the `count` entries from `first` on.
    pub(crate) fn stretch(&self, first: usize, count: usize) -> &[Kept]
        requires within { first + count ≤ length self.now }
        requires bounded { length self.now < 2 ^ 32 }
        ensures { AreKept (λ j. get_or self.now (first + j) (pos 0)) first 0 count result.now }
    {
        // At most `zeros` of the entries before `first` are 0. The others are kept.
        let zeros = self.length - self.kept.len();
        let passed = first.saturating_sub(zeros);
        let (_, near) = self.kept.split_at(passed);
        let (_, behind) = near.split_at(count_before(near, first, first - passed));
        let (stretch, _) = behind.split_at(count_before(behind, first + count, count));
        stretch
    }
}
