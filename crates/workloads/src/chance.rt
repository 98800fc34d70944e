//! Numbers that look random, the same for the same seed.

/// Spreads a number over all bits: the mixing of SplitMix64 (Steele, Lea and Flood, 2014).
pub(crate) fn mixed(number: u64) -> u64 {
    let number = (number ^ (number >> 30)).wrapping_mul(0xBF58_476D_1CE4_E5B9);
    let number = (number ^ (number >> 27)).wrapping_mul(0x94D0_49BB_1331_11EB);
    number ^ (number >> 31)
}

/// A source of numbers: a counter, of which each number is mixed.
#[derive(Clone, Copy)]
pub(crate) struct Chance {
    counter: u64,
}

impl Chance {
    /// The numbers of a seed.
    pub(crate) fn new(seed: u64) -> Chance {
        Chance {
            counter: mixed(seed),
        }
    }

    /// The next number.
    pub(crate) fn next(&mut self) -> u64 {
        self.counter = self.counter.wrapping_add(0x9E37_79B9_7F4A_7C15);
        mixed(self.counter)
    }

    /// The next number, below a bound of less than 2^32; 0 where the bound is 0.
    pub(crate) fn below(&mut self, bound: usize) -> usize {
        ((self.next() >> 32).wrapping_mul(bound as u64) >> 32) as usize
    }

    /// One of these.
    pub(crate) fn one_of<T: Copy + Drop>(&mut self, choices: &[T], otherwise: T) -> T {
        let place = self.below(choices.len());
        choices.get(place).copied().unwrap_or(otherwise)
    }
}

/// The numbers below a power of two, each once, in an order that looks random.
#[derive(Clone, Copy)]
pub(crate) struct Scatter {
    mask: u64,
    key: u64,
    factor: u64,
}

impl Scatter {
    /// An order of the numbers below so many, which are a power of two.
    pub(crate) fn of(count: u64, chance: &mut Chance) -> Scatter {
        Scatter {
            mask: count.saturating_sub(1),
            key: chance.next(),
            factor: chance.next() | 1,
        }
    }

    /// The number at a place. Each step can be undone, so that none comes twice.
    pub(crate) fn at(&self, place: u64) -> u64 {
        let number = (place ^ self.key).wrapping_mul(self.factor) & self.mask;
        let number = (number ^ (number >> 7)).wrapping_mul(0x9E37_79B9_7F4A_7C15) & self.mask;
        let number = (number ^ (number >> 9)).wrapping_mul(self.factor) & self.mask;
        number ^ (number >> 5)
    }
}
