// Rows, as the files of `data` have them. A blank line stands between two rows, and a line that begins with `#` is a comment.
// A row has these lines, of which those without need are left out:
//
//     row NAME                      what the row shows
//     words WORD WORD ..            words of a command line, as `--max-depth 4 -D W=8 -I inc --origins`
//     file PATH TEXT                a text; the first one is the main text
//     files COUNT PATH TEXT         so many texts, numbered by `{#}` from 0 and by `{+}` from 1
//     output TEXT                   the output
//     fault LINE                    the line that reports the fault that ends it
//     held DEFINITIONS ARGUMENTS    how many bytes of each are held at its end
//     piece BYTE NUMBERS            what is held at a piece that begins with this byte: the bytes of the definitions and of the
//                                   arguments, and how many texts of macros, actuals, sources and conditionals are open
//     asked SEARCHES READS FLUSHES  how often its texts are searched and read, a byte a read, and its output is flushed
//     found PATH                    the main text is found under another path than the one that is asked for
//     devices searches COUNT        so many searches go well, and the later ones fail; also `reads COUNT` and `writes COUNT`, and
//                                   `endless BYTE`, a byte by its number, which comes for ever after each text. It is run so alone
//     memory                        the row is one of texts in memory: the scripts over files leave it out
//
// A word, a path and a text are spelled as `spelled` reads them.
use crate::devices::{Devices, Failing, WHOLE, with_calls};
use crate::spelling::{numbered, spelled};
use std::alloc::{AllocError, AllocFailed, Global};

/// A row: texts, the words by which they are preprocessed, and what must come of them.
#[derive(Drop)]
pub struct Row {
    /// What the row shows.
    pub name: String,
    /// The words of its command line, but for the program's name and the main path.
    pub words: Vec<String>,
    /// Its texts by their paths, the main text first.
    pub files: Vec<(String, Vec<u8>)>,
    /// The output.
    pub output: Vec<u8>,
    /// The line that reports the fault that ends it, with its LF; nothing where none does.
    pub fault: Vec<u8>,
    /// The bytes of the definitions and of the arguments that are held at its end, where the row has them.
    pub held: Option<(usize, usize)>,
    /// What is held at pieces.
    pub pieces: Vec<HeldPiece>,
    /// How often its texts are searched and read, a byte a read, and its output is flushed, where the row has it.
    pub asked: Option<(u64, u64, u64)>,
    /// The path that its main text is found under, where it is another one than the one that is asked for.
    pub found: Option<String>,
    /// The devices that it is run by alone, where some fail or have no end.
    pub devices: Option<Devices>,
}

/// What is held at a piece.
#[derive(Clone, Copy, Drop)]
pub struct HeldPiece {
    /// The byte that the piece begins with.
    pub first: u8,
    /// The bytes of the definitions and of the arguments, and how many texts of macros, actuals, sources and conditionals are open.
    pub held: [usize; 6],
}

/// Why a text isn't one of rows.
pub enum RowFault {
    /// There was no memory for its rows.
    NoMemory,
    /// A row has a line that isn't a row's.
    BadLine,
}

impl From<AllocError> for RowFault {
    fn from(_error: AllocError) -> RowFault {
        RowFault::NoMemory
    }
}

impl<T: Drop> From<AllocFailed<T>> for RowFault {
    fn from(_error: AllocFailed<T>) -> RowFault {
        RowFault::NoMemory
    }
}

/// The rows of a text.
pub fn rows_of(alloc: Global, text: &str) -> Result<Vec<Row>, RowFault> {
    let mut rows = Vec::new(alloc);
    for part in text.split("\n\n") {
        let mut row = empty_row(alloc);
        for line in part.lines() {
            if !line.is_empty() && !line.starts_with("#") {
                read_line(alloc, &mut row, line)?;
            }
        }
        if !row.name.as_str().is_empty() {
            rows.push(row)?;
        }
    }
    Ok(rows)
}

// A row without a name.
fn empty_row(alloc: Global) -> Row {
    Row {
        name: String::new(alloc),
        words: Vec::new(alloc),
        files: Vec::new(alloc),
        output: Vec::new(alloc),
        fault: Vec::new(alloc),
        held: None,
        pieces: Vec::new(alloc),
        asked: None,
        found: None,
        devices: None,
    }
}

// Reads one line into a row.
fn read_line(alloc: Global, row: &mut Row, line: &str) -> Result<(), RowFault> {
    let (field, rest) = line.split_once(' ').unwrap_or((line, ""));
    match field {
        "row" => row.name.push_str(rest)?,
        "words" => {
            for word in rest.split(' ') {
                row.words.push(text_of(alloc, word)?)?;
            }
        }
        "file" => add_file(alloc, row, rest)?,
        "files" => add_files(alloc, row, rest)?,
        "output" => row.output = spelled(alloc, rest)?,
        "fault" => {
            row.fault = spelled(alloc, rest)?;
            row.fault.push(b'\n')?;
        }
        "held" => row.held = Some(two_numbers(rest)?),
        "piece" => row.pieces.push(held_piece(rest)?)?,
        "asked" => row.asked = Some(asked_of(rest)?),
        "found" => row.found = Some(text_of(alloc, rest)?),
        "devices" => row.devices = Some(devices_of(rest)?),
        "memory" => {}
        _ => return Err(RowFault::BadLine),
    }
    Ok(())
}

// Adds a text to a row: its path and what is in it.
fn add_file(alloc: Global, row: &mut Row, rest: &str) -> Result<(), RowFault> {
    let (path, text) = rest.split_once(' ').unwrap_or((rest, ""));
    row.files
        .push((text_of(alloc, path)?, spelled(alloc, text)?))?;
    Ok(())
}

// Adds so many texts to a row, whose paths and what is in them are numbered.
fn add_files(alloc: Global, row: &mut Row, rest: &str) -> Result<(), RowFault> {
    let (count, file) = rest.split_once(' ').unwrap_or((rest, ""));
    let Ok(count) = count.parse::<u32>() else {
        return Err(RowFault::BadLine);
    };
    for number in 0..count {
        add_file(alloc, row, numbered(alloc, file, number)?.as_str())?;
    }
    Ok(())
}

// Two numbers.
fn two_numbers(text: &str) -> Result<(usize, usize), RowFault> {
    match numbers_of(text)? {
        [first, second, 0, 0, 0, 0] => Ok((first, second)),
        _ => Err(RowFault::BadLine),
    }
}

// How often texts are searched and read, and an output is flushed.
fn asked_of(text: &str) -> Result<(u64, u64, u64), RowFault> {
    match numbers_of(text)? {
        [searches, reads, flushes, 0, 0, 0] => Ok((searches as u64, reads as u64, flushes as u64)),
        _ => Err(RowFault::BadLine),
    }
}

// What is held at a piece.
fn held_piece(text: &str) -> Result<HeldPiece, RowFault> {
    match text.split_once(' ') {
        Some((first, numbers)) => Ok(HeldPiece {
            first: first.as_bytes().first().copied().unwrap_or(0),
            held: numbers_of(numbers)?,
        }),
        None => Err(RowFault::BadLine),
    }
}

// Devices of which so many calls of a kind go well, or whose texts go on with a byte.
fn devices_of(text: &str) -> Result<Devices, RowFault> {
    let (kind, count) = text.split_once(' ').unwrap_or((text, ""));
    let Ok(calls) = count.parse::<u64>() else {
        return Err(RowFault::BadLine);
    };
    match kind {
        "searches" => Ok(with_calls(Failing::Search, WHOLE, calls)),
        "reads" => Ok(with_calls(Failing::Read, WHOLE, calls)),
        "writes" => Ok(with_calls(Failing::Write, WHOLE, calls)),
        "endless" => Ok(Devices {
            endless: u8::try_from(calls).ok(),
            ..WHOLE
        }),
        _ => Err(RowFault::BadLine),
    }
}

// Up to six numbers, and 0 for each further one.
fn numbers_of(text: &str) -> Result<[usize; 6], RowFault> {
    let mut numbers = [0; 6];
    for (place, word) in text.split(' ').enumerate() {
        match (numbers.get_mut(place), word.parse::<usize>()) {
            (Some(number), Ok(read)) => *number = read,
            (_, _) => return Err(RowFault::BadLine),
        }
    }
    Ok(numbers)
}

// A spelled text that is text.
fn text_of(alloc: Global, word: &str) -> Result<String, RowFault> {
    let bytes = spelled(alloc, word)?;
    match str::from_utf8(bytes.as_slice()) {
        Ok(text) => Ok(String::from_str(alloc, text)?),
        Err(_) => Err(RowFault::BadLine),
    }
}
