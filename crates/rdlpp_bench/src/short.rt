//! Many short runs: small sources, each with an engine of its own, or all in one.
use crate::digest::Digest;
use crate::random::Random;
use crate::run::{run_each, run_short};
use crate::text::Text;
use std::alloc::{AllocError, Global};

// How many sources there are in a row of full size.
const SOURCES: usize = 6_400;

const LINES: [&str; 8] = [
    "    field { sw = rw; hw = r; reset = 0x#; } %[#:#] = 1;\n",
    "    field { sw = `ACCESS; } %[`WIDTH - 1:0] = 0;\n",
    "    // what % counts\n",
    "    `FIELD(%, #, )\n",
    "`ifdef DEBUG\n    field {} %;\n`endif\n",
    "    %.desc = \"# bits\";\n",
    "`define LAST #\n",
    "\n",
];

/// A row of such runs; `size` is 64 for one of full size.
pub fn run_shorts(
    alloc: Global,
    random: &mut Random,
    size: usize,
    total: &mut Digest,
) -> Result<(), AllocError> {
    for _ in 0..SOURCES / 64 * size.min(64) {
        let mut text = Text::new(alloc);
        put_source(&mut text, random)?;
        run_short(alloc, text.bytes(), total);
    }
    Ok(())
}

/// The same row, in one engine. Its texts are all made before, one behind the other, since the engine borrows them.
pub fn run_renewed(
    alloc: Global,
    random: &mut Random,
    size: usize,
    total: &mut Digest,
) -> Result<(), AllocError> {
    let mut texts = Text::new(alloc);
    let mut ends = Vec::new(alloc);
    for _ in 0..SOURCES / 64 * size.min(64) {
        put_source(&mut texts, random)?;
        ends.push(texts.len())?;
    }
    run_texts(alloc, texts.bytes(), ends.as_slice(), total)
}

// Preprocesses texts one after another in one engine: each begins where the one before it ends.
fn run_texts(
    alloc: Global,
    texts: &[u8],
    ends: &[usize],
    total: &mut Digest,
) -> Result<(), AllocError> {
    let mut files = Vec::new(alloc);
    let mut start = 0;
    for end in ends {
        files.push(("main", texts.get(start..*end).unwrap_or(&[])))?;
        start = *end;
    }
    run_each(alloc, files.as_slice(), total);
    Ok(())
}

// Appends a source of 0.2 to 5 kB, more of which are short than long. One in sixty-four ends in a fault.
fn put_source(text: &mut Text, random: &mut Random) -> Result<(), AllocError> {
    text.pattern(
        random,
        "`define WIDTH #\n`define ACCESS rw\n`define FIELD(word, high=7, low=0) field {} word[high:low];\naddrmap % {\n",
    )?;
    let most = 1 + random.below(120);
    for _ in 0..random.below(most) {
        let line = random.one_of(&LINES);
        text.pattern(random, line)?;
    }
    if random.below(64) == 0 {
        text.pattern(random, "`MISSING_#\n")?;
    }
    text.put(b"};\n")
}
