//! Numbers by chance, the same for a seed.
ghost use Rattle.std.specs.Prelude.{◌≤◌};

/// A row of numbers: a counter that is stirred (SplitMix64 of Steele, Lea and Flood).
#[derive(Drop)]
pub struct Random {
    state: u64,
}

impl Random {
    /// The row of a seed.
    pub fn new(seed: u64) -> Random {
        Random { state: seed }
    }

    /// The next number.
    pub fn next(&mut self) -> u64 {
        self.state = self.state.wrapping_add(0x9e37_79b9_7f4a_7c15);
        let mut number = self.state;
        number = (number ^ (number >> 30)).wrapping_mul(0xbf58_476d_1ce4_e5b9);
        number = (number ^ (number >> 27)).wrapping_mul(0x94d0_49bb_1331_11eb);
        number ^ (number >> 31)
    }

    /// The next number below `end`; 0 where that is 0.
    pub fn below(&mut self, end: usize) -> usize
        ensures { result ≤ end }
    {
        let number = (self.next() >> 33) as usize;
        if end == 0 { 0 } else { number % end }
    }

    /// One of some texts; an empty one where there is none.
    pub fn one_of<'a>(&mut self, texts: &[&'a str]) -> &'a str {
        let place = self.below(texts.len());
        texts.get(place).copied().unwrap_or("")
    }
}
