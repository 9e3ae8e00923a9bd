//! Texts that are made by chance out of patterns.
use crate::random::Random;
use itoa::Buffer;
use std::alloc::{AllocError, Global};

// What names are made of, as register descriptions have them.
const WORDS: [&str; 24] = [
    "ctrl",
    "status",
    "limit",
    "flags",
    "count",
    "mask",
    "irq",
    "enable",
    "dma_chan",
    "timer",
    "fifo_level",
    "clock_div",
    "uart",
    "gpio_dir",
    "pll_lock",
    "reset_cause",
    "spi",
    "watchdog",
    "adc_sample",
    "threshold",
    "mode",
    "error_log",
    "i2c",
    "version",
];

/// A text that is being made.
#[derive(Drop)]
pub struct Text {
    bytes: Vec<u8>,
}

impl Text {
    /// An empty text.
    pub fn new(alloc: Global) -> Text {
        Text {
            bytes: Vec::new(alloc),
        }
    }

    /// The bytes so far.
    pub fn bytes(&self) -> &[u8] {
        self.bytes.as_slice()
    }

    /// How many bytes there are so far.
    pub fn len(&self) -> usize {
        self.bytes.len()
    }

    /// Appends bytes as they stand.
    pub fn put(&mut self, part: &[u8]) -> Result<(), AllocError> {
        self.bytes.extend_from_slice(part)
    }

    /// Appends a number.
    pub fn number(&mut self, number: usize) -> Result<(), AllocError> {
        let mut digits = Buffer::new();
        self.put(digits.format(number).as_bytes())
    }

    /// Appends a name: one of the words, and a number below 1,000.
    pub fn name(&mut self, random: &mut Random) -> Result<(), AllocError> {
        self.put(random.one_of(&WORDS).as_bytes())?;
        self.number(random.below(1000))
    }

    /// Appends a pattern: for each `#` in it stands a number below 64, for each `%` a name.
    pub fn pattern(&mut self, random: &mut Random, pattern: &str) -> Result<(), AllocError> {
        for byte in pattern.as_bytes() {
            match *byte {
                b'#' => self.number(random.below(64))?,
                b'%' => self.name(random)?,
                other => self.bytes.push(other)?,
            }
        }
        Ok(())
    }
}
