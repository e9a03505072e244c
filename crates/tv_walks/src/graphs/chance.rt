/// Numbers in a fixed order without a plain pattern: a linear congruential generator with the multiplier and the increment of
/// D. E. Knuth's MMIX.
#[derive(Drop)]
pub(crate) struct Chance {
    state: u64,
}

impl Chance {
    pub(crate) fn new(seed: u64) -> Chance {
        Chance { state: seed }
    }

    /// The next number.
    pub(crate) fn next(&mut self) -> u64 {
        self.state = self
            .state
            .wrapping_mul(6364136223846793005)
            .wrapping_add(1442695040888963407);
        self.state >> 33
    }

    /// One of the numbers of the list, and 0 of an empty one.
    pub(crate) fn one_of(&mut self, numbers: &[i64]) -> i64 {
        let place = self.next() as usize;
        if numbers.is_empty() {
            return 0;
        }
        numbers[place % numbers.len()]
    }
}
