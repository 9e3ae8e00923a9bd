// A sink that gathers bytes in front of a writer, as a caller meets it: when it asks its writer, which no contract counts.
use rdlpp::{Buffered, Sink, SinkFault};
use std::alloc::{AllocError, Global};
use std::io::{self, ErrorKind, Write};

// The most bytes that are held back.
const CAPACITY: usize = 8;

// A call of a sink: the part that is written, or nothing where it is a flush; its answer, with 0 for a flush; and what the writer has
// then, in how many writes.
type Call = (
    Option<&'static [u8]>,
    Result<usize, SinkFault>,
    &'static [u8],
    u64,
);

// How a writer behaves, and what comes of calls of the sink in front of it.
#[derive(Clone, Copy)]
struct Case {
    name: &'static str,
    // the most bytes of a write
    step: usize,
    // the write that is interrupted, counted from 0
    interrupted: u64,
    // the write that fails, counted from 0
    broken: u64,
    // whether each flush fails
    flush_fails: bool,
    calls: &'static [Call],
    // what the writer has once the sink is dropped
    at_end: &'static [u8],
}

// A writer of three bytes a write, of which nothing fails, and of which nothing is asked.
const PLAIN: Case = Case {
    name: "",
    step: 3,
    interrupted: u64::MAX,
    broken: u64::MAX,
    flush_fails: false,
    calls: &[],
    at_end: b"",
};

const CASES: [Case; 6] = [
    Case {
        name: "short parts are gathered",
        calls: &[
            (Some(b"ab"), Ok(2), b"", 0),
            (Some(b"c"), Ok(1), b"", 0),
            (Some(b""), Ok(0), b"", 0),
            (Some(b"defgh"), Ok(5), b"", 0),
            (Some(b"i"), Ok(1), b"abcdefgh", 3),
            (None, Ok(0), b"abcdefghi", 4),
        ],
        at_end: b"abcdefghi",
        ..PLAIN
    },
    Case {
        name: "a long part is written past what was held back",
        calls: &[
            (Some(b"ab"), Ok(2), b"", 0),
            (Some(b"cdefghij"), Ok(3), b"abcde", 2),
        ],
        at_end: b"abcde",
        ..PLAIN
    },
    Case {
        name: "what a failed flush left is kept",
        interrupted: 0,
        broken: 2,
        calls: &[
            (Some(b"abcde"), Ok(5), b"", 0),
            (None, Err(SinkFault), b"abc", 3),
            (None, Ok(0), b"abcde", 4),
        ],
        at_end: b"abcde",
        ..PLAIN
    },
    Case {
        name: "a failed write and a failed flush are told",
        broken: 0,
        flush_fails: true,
        calls: &[
            (Some(b"abcdefgh"), Err(SinkFault), b"", 1),
            (Some(b"efg"), Ok(3), b"", 1),
            (None, Err(SinkFault), b"efg", 2),
        ],
        at_end: b"efg",
        ..PLAIN
    },
    Case {
        name: "what is held back is passed on at the end",
        calls: &[(Some(b"ab"), Ok(2), b"", 0)],
        at_end: b"ab",
        ..PLAIN
    },
    // For a long part it is asked once where nothing is held back, and a drop ends over it.
    Case {
        name: "a writer that takes nothing fails a flush and a long part",
        step: 0,
        calls: &[
            (Some(b"cdefghij"), Ok(0), b"", 1),
            (Some(b"ab"), Ok(2), b"", 1),
            (None, Err(SinkFault), b"", 2),
            (Some(b"cdefghij"), Err(SinkFault), b"", 3),
        ],
        ..PLAIN
    },
];

// The writer of a case.
#[derive(Drop)]
struct CaseWriter {
    case: Case,
    taken: Vec<u8>,
    writes: u64,
}

impl Write for CaseWriter {
    fn write(&mut self, part: &[u8]) -> io::Result<usize> {
        let at = self.writes;
        self.writes = at.saturating_add(1);
        if at == self.case.interrupted {
            return Err(io::Error::from(ErrorKind::Interrupted));
        }
        if at == self.case.broken {
            return Err(io::Error::from(ErrorKind::BrokenPipe));
        }
        let len = part.len().min(self.case.step);
        self.taken.extend_from_slice(&part[..len])?;
        Ok(len)
    }

    fn flush(&mut self) -> io::Result<()> {
        if self.case.flush_fails {
            return Err(io::Error::from(ErrorKind::BrokenPipe));
        }
        Ok(())
    }
}

/// What isn't as it has to be with a sink in front of a writer; nothing where all is.
pub fn failed_gathering(alloc: Global) -> Result<Option<&'static str>, AllocError> {
    for case in &CASES {
        let mut writer = CaseWriter {
            case: *case,
            taken: Vec::new(alloc),
            writes: 0,
        };
        let mut sink = Buffered::with_capacity(alloc, CAPACITY, &mut writer)?;
        for call in case.calls {
            if !comes_to(&mut sink, call) {
                return Ok(Some(case.name));
            }
        }
        drop(sink);
        if writer.taken.as_slice() != case.at_end {
            return Ok(Some(case.name));
        }
    }
    Ok(None)
}

// Makes a call of a sink, and answers whether it came to what it has to.
fn comes_to(sink: &mut Buffered<&mut CaseWriter>, call: &Call) -> bool {
    let (part, wanted, taken, writes) = *call;
    let answer = match part {
        Some(part) => sink.write(part),
        None => match sink.flush() {
            Ok(()) => Ok(0),
            Err(fault) => Err(fault),
        },
    };
    let writer = sink.writer();
    answer == wanted && writer.taken.as_slice() == taken && writer.writes == writes
}
