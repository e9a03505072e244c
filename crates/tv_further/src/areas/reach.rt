use crate::areas::passage::Passage;
use std::alloc::{AllocError, Global};

/// Which of `count` areas are reached from which by passages over which no rank falls yet; each reaches itself.
#[derive(Drop)]
pub(crate) struct Reach {
    count: usize,
    flags: Vec<bool>,
}

impl Reach {
    /// The reach of the passages.
    pub(crate) fn new(
        alloc: Global,
        count: usize,
        passages: &[Passage],
    ) -> Result<Reach, AllocError> {
        let mut reach = Reach::alone(alloc, count)?;
        for passage in passages {
            if passage.fall == 0 {
                reach.set(passage.from, passage.to);
            }
        }
        reach.close();
        Ok(reach)
    }

    /// The reach of `count` areas where each reaches itself alone.
    pub(crate) fn alone(alloc: Global, count: usize) -> Result<Reach, AllocError> {
        let flags = vec![in alloc; false; count.saturating_mul(count)]?;
        let mut reach = Reach { count, flags };
        for area in 0..count {
            reach.set(area, area);
        }
        Ok(reach)
    }

    /// Sets what is reached through other areas.
    pub(crate) fn close(&mut self) {
        for middle in 0..self.count {
            self.go_through(middle);
        }
    }

    /// Where the flag of two areas stands.
    fn place(&self, from: usize, to: usize) -> usize {
        from.saturating_mul(self.count).saturating_add(to)
    }

    /// Whether the one area reaches the other.
    fn has(&self, from: usize, to: usize) -> bool {
        self.flags
            .get(self.place(from, to))
            .copied()
            .unwrap_or(false)
    }

    /// Sets that the one area reaches the other.
    pub(crate) fn set(&mut self, from: usize, to: usize) {
        let place = self.place(from, to);
        if let Some(flag) = self.flags.get_mut(place) {
            *flag = true;
        }
    }

    /// Sets what is reached through an area.
    fn go_through(&mut self, middle: usize) {
        for from in 0..self.count {
            if self.has(from, middle) {
                self.add_row(from, middle);
            }
        }
    }

    /// Sets that an area reaches what another one does.
    fn add_row(&mut self, from: usize, middle: usize) {
        for to in 0..self.count {
            if self.has(middle, to) {
                self.set(from, to);
            }
        }
    }

    /// Whether each of the areas reaches the other.
    pub(crate) fn are_joined(&self, first: usize, second: usize) -> bool {
        self.has(first, second) && self.has(second, first)
    }

    /// How many areas are reached from one.
    pub(crate) fn count_from(&self, from: usize) -> i64 {
        let mut count: i64 = 0;
        for to in 0..self.count {
            if self.has(from, to) {
                count = count.saturating_add(1);
            }
        }
        count
    }
}
