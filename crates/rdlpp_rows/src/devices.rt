// Sources and a writer that take a few bytes at a time, and fail from a chosen call on.
use arrayvec::ArrayString;
use rdlpp::{Found, SourceFault, Sources, Texts};
use rdlpp_source::TextReader;
use std::io::{self, ErrorKind, Write};

/// How sources and a writer behave: the most bytes of a read and of a write, and how many calls of each kind go well.
#[derive(Clone, Copy)]
pub struct Devices {
    /// The most bytes of a read and of a write.
    pub step: usize,
    /// How many searches go well; each later one fails.
    pub searches: u64,
    /// How many reads go well.
    pub reads: u64,
    /// How many writes go well.
    pub writes: u64,
    /// Whether a later write takes nothing; else it fails.
    pub takes_nothing: bool,
    /// How many flushes go well.
    pub flushes: u64,
    /// The byte that comes for ever after each text, where one does.
    pub endless: Option<u8>,
}

/// Devices that take everything at once, and never fail.
pub const WHOLE: Devices = Devices {
    step: usize::MAX,
    searches: u64::MAX,
    reads: u64::MAX,
    writes: u64::MAX,
    takes_nothing: false,
    flushes: u64::MAX,
    endless: None,
};

/// Devices that take one byte at a time, and never fail.
pub const SLOW: Devices = Devices { step: 1, ..WHOLE };

/// A kind of call that fails in a run.
#[derive(Clone, Copy)]
pub enum Failing {
    /// A search for a source.
    Search,
    /// A read.
    Read,
    /// A write.
    Write,
    /// A write, which takes nothing.
    EmptyWrite,
    /// A flush.
    Flush,
}

/// Devices of which so many calls of a kind go well.
pub fn with_calls(failing: Failing, devices: Devices, calls: u64) -> Devices {
    match failing {
        Failing::Search => Devices {
            searches: calls,
            ..devices
        },
        Failing::Read => Devices {
            reads: calls,
            ..devices
        },
        Failing::Write => Devices {
            writes: calls,
            ..devices
        },
        Failing::EmptyWrite => Devices {
            writes: calls,
            takes_nothing: true,
            ..devices
        },
        Failing::Flush => Devices {
            flushes: calls,
            ..devices
        },
    }
}

/// Texts in memory, by such devices.
#[derive(Drop)]
pub struct DealtTexts<'a> {
    /// The texts.
    pub texts: Texts<'a>,
    /// The path that the main text is found under, where it is another one than the one that is asked for.
    pub found: Option<&'a str>,
    /// What is left of the devices.
    pub devices: Devices,
    /// How often a search or a read failed.
    pub failures: u64,
}

impl<'a> Sources for DealtTexts<'a> {
    type Reader = TextReader<'a>;

    ghost use Rattle.std.specs.Prelude.{[]};
    ghost use Rattle.rdlpp_source.specs.Sources.{Missing};

    ghost has_known_texts = { λ _. ⊥ };

    ghost catalog = { λ _. record { top = λ _. Missing; find = λ _ _. Missing } };

    ghost unread = { λ _. [] };

    ghost failures = { λ source. source.failures };

    ghost refusals = { λ _. 0 };

    fn top(&mut self, path: &str) -> Result<Found<TextReader<'a>>, SourceFault> {
        if self.devices.searches == 0 {
            self.failures = self.failures.saturating_add(1);
            return Err(SourceFault::Device);
        }
        self.devices.searches -= 1;
        match self.texts.top(path) {
            Ok(found) => Ok(Found {
                path: shown_path(self.found, found.path),
                reader: found.reader,
            }),
            Err(fault) => Err(fault),
        }
    }

    fn find(&mut self, from: &str, name: &str) -> Result<Found<TextReader<'a>>, SourceFault> {
        if self.devices.searches == 0 {
            self.failures = self.failures.saturating_add(1);
            return Err(SourceFault::Device);
        }
        self.devices.searches -= 1;
        self.texts.find(from, name)
    }

    fn read(&mut self, reader: &mut TextReader<'a>, to: &mut [u8]) -> Result<usize, SourceFault> {
        if self.devices.reads == 0 {
            self.failures = self.failures.saturating_add(1);
            return Err(SourceFault::Device);
        }
        self.devices.reads -= 1;
        let most = to.len().min(self.devices.step);
        let len = self.texts.read(reader, &mut to[..most])?;
        match self.devices.endless {
            Some(byte) if len == 0 => {
                to[..most].fill(byte);
                Ok(most)
            }
            _ => Ok(len),
        }
    }
}

// The path that a text is found under: another one, where there is one, or its own.
fn shown_path(other: Option<&str>, path: ArrayString<1024>) -> ArrayString<1024> {
    match other {
        Some(other) => ArrayString::from(other).unwrap_or(path),
        None => path,
    }
}

/// A writer by such devices.
#[derive(Drop)]
pub struct DealtWriter {
    /// What was taken.
    pub taken: Vec<u8>,
    /// How many bytes each write took.
    pub lens: Vec<usize>,
    /// How often it was flushed.
    pub flushes: u64,
    /// What is left of the devices.
    pub devices: Devices,
}

impl Write for DealtWriter {
    fn write(&mut self, part: &[u8]) -> io::Result<usize> {
        if self.devices.writes == 0 && self.devices.takes_nothing {
            return Ok(0);
        }
        if self.devices.writes == 0 {
            return Err(io::Error::from(ErrorKind::BrokenPipe));
        }
        self.devices.writes -= 1;
        let len = part.len().min(self.devices.step);
        self.taken.extend_from_slice(&part[..len])?;
        self.lens.push(len)?;
        Ok(len)
    }

    fn flush(&mut self) -> io::Result<()> {
        self.flushes = self.flushes.saturating_add(1);
        if self.devices.flushes == 0 {
            return Err(io::Error::from(ErrorKind::BrokenPipe));
        }
        self.devices.flushes -= 1;
        Ok(())
    }
}
