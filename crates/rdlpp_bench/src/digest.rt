//! A number that stands for all bytes and numbers that it was given.
ghost use Rattle.std.specs.Prelude.{length, ◌+◌, ◌≤◌};

use std::io::{self, Write};

const FACTOR: u64 = 0x9fb2_1c65_1e98_df25;

/// A writer that keeps a number of what it takes, whatever parts that comes in.
#[derive(Drop)]
pub struct Digest {
    state: u64,
    // The bytes that don't fill a word yet, the last one lowest, and how many they are.
    begun: u64,
    count: u32,
}

impl Digest {
    /// A digest of nothing.
    pub fn new() -> Digest {
        Digest {
            state: 1,
            begun: 0,
            count: 0,
        }
    }

    /// Takes a number.
    pub fn number(&mut self, number: u64) {
        let mixed = (self.state ^ number).wrapping_mul(FACTOR);
        self.state = mixed ^ (mixed >> 29);
    }

    /// What stands for all that was taken.
    pub fn value(&self) -> u64 {
        let mixed = (self.state ^ self.begun).wrapping_mul(FACTOR);
        mixed ^ (mixed >> 32) ^ u64::from(self.count % 8)
    }

    // Takes one byte.
    fn byte(&mut self, byte: u8) {
        self.begun = (self.begun << 8) | u64::from(byte);
        self.count = self.count.wrapping_add(1);
        if self.count % 8 == 0 {
            let word = self.begun;
            self.begun = 0;
            self.number(word);
        }
    }

    // Takes bytes one by one.
    fn bytes(&mut self, bytes: &[u8]) {
        for byte in bytes {
            self.byte(*byte);
        }
    }

    // Takes whole words, where none is begun.
    fn words(&mut self, bytes: &[u8]) {
        let count = bytes.len() / 8;
        for place in 0..count {
            let word = word_at(bytes, 8 * place);
            self.number(word);
        }
    }
}

// The eight bytes at a place as a number, the last one lowest.
fn word_at(bytes: &[u8], at: usize) -> u64
    requires { at + 8 ≤ length bytes.now }
{
    let b = &bytes[at..at + 8];
    u64::from_be_bytes([b[0], b[1], b[2], b[3], b[4], b[5], b[6], b[7]])
}

impl Write for Digest {
    fn write(&mut self, part: &[u8]) -> io::Result<usize> {
        let begun = (self.count % 8) as usize;
        let front = ((8 - begun) % 8).min(part.len());
        self.bytes(&part[..front]);
        let rest = &part[front..];
        let whole = rest.len() - rest.len() % 8;
        if front == (8 - begun) % 8 {
            self.words(&rest[..whole]);
            self.bytes(&rest[whole..]);
        }
        Ok(part.len())
    }

    fn flush(&mut self) -> io::Result<()> {
        Ok(())
    }
}
