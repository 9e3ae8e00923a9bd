//! A tree of includes: files in memory, each with its guard, that include others on every level below.
use crate::digest::Digest;
use crate::random::Random;
use crate::run::run_files;
use crate::text::Text;
use rdlpp::Limits;
use std::alloc::{AllocError, Global};

// How many files a tree of full size has, on how many levels, and the most others that one includes.
const FILES: usize = 500;

const LEVELS: usize = 10;

const OTHERS: usize = 24;

const LINES: [&str; 6] = [
    "    field { sw = rw; hw = r; reset = 0x#; } %[#:#] = 1;\n",
    "    reg { default regwidth = 32; field { sw = r; } %[#:0]; } % @ 0x#00;\n",
    "    // what % counts, from # to #\n",
    "    % = 8'h#;\n",
    "`define LAST_# #\n",
    "\n",
];

// Where a file of a tree begins among the bytes of all, its name first, and where its name and its text end.
#[derive(Clone, Copy, Drop)]
struct Place {
    name: usize,
    text: usize,
    end: usize,
}

/// A run over such a tree; `size` is 64 for one of full size.
pub fn run_includes(
    alloc: Global,
    random: &mut Random,
    size: usize,
    total: &mut Digest,
) -> Result<(), AllocError> {
    let count = FILES / 64 * size.min(64);
    let mut all = Text::new(alloc);
    let mut places = Vec::new(alloc);
    for number in 0..count {
        places.push(put_file(&mut all, random, number, count)?)?;
    }
    let name = all.len();
    all.put(b"main")?;
    let text = all.len();
    for number in 0..count {
        put_include(&mut all, number)?;
    }
    places.push(Place {
        name,
        text,
        end: all.len(),
    })?;
    let mut files = Vec::new(alloc);
    for place in &places {
        files.push(file_at(all.bytes(), *place))?;
    }
    run_files(alloc, Limits::standard(), files.as_slice(), total)
}

// The name and the text of a file.
fn file_at(bytes: &[u8], place: Place) -> (&str, &[u8]) {
    let name = bytes.get(place.name..place.text).unwrap_or(&[]);
    let text = bytes.get(place.text..place.end).unwrap_or(&[]);
    (str::from_utf8(name).unwrap_or(""), text)
}

// Appends a file: its name, and its text of 1 to 20 kB behind a guard, with includes of files on lower levels in front.
fn put_file(
    all: &mut Text,
    random: &mut Random,
    number: usize,
    count: usize,
) -> Result<Place, AllocError> {
    let name = all.len();
    put_name(all, number)?;
    let text = all.len();
    all.put(b"// of the tree\n`ifndef GUARD_")?;
    all.number(number)?;
    all.put(b"\n`define GUARD_")?;
    all.number(number)?;
    all.put(b"\n")?;
    let level = number % LEVELS;
    for _ in 0..random.below(OTHERS) {
        let other = random.below(count);
        if other % LEVELS > level {
            put_include(all, other)?;
        }
    }
    let wanted = 1_000 + random.below(100) * random.below(200);
    for _ in 0..wanted / 40 {
        let line = random.one_of(&LINES);
        all.pattern(random, line)?;
    }
    all.put(b"`endif\n")?;
    Ok(Place {
        name,
        text,
        end: all.len(),
    })
}

// Appends the name of a file.
fn put_name(all: &mut Text, number: usize) -> Result<(), AllocError> {
    all.put(b"block_")?;
    all.number(number)?;
    all.put(b"_regs.rdl")
}

// Appends an include of a file.
fn put_include(all: &mut Text, number: usize) -> Result<(), AllocError> {
    all.put(b"`include \"")?;
    put_name(all, number)?;
    all.put(b"\"\n")
}
