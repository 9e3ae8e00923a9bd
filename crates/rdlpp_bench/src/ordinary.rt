//! Long ordinary text, with comments, strings and conditionals, and a usage every few lines.
use crate::digest::Digest;
use crate::random::Random;
use crate::run::run_files;
use crate::text::Text;
use rdlpp::Limits;
use std::alloc::{AllocError, Global};

// The bytes of a text of full size, and how many different paragraphs it is made of.
const BYTES: usize = 24_000_000;

const PARAGRAPHS: usize = 400;

const MACROS: &str = "\
`define WIDTH 32
`define DEBUG
`define BITS(high, low=0) high:low
`define RESET(value) reset = value;
";

const LINES: [&str; 12] = [
    "    field { sw = rw; hw = r; reset = 0x#; } %[#:#] = 1;\n",
    "    reg { default regwidth = 32; field { sw = r; } %[#:0]; } % @ 0x#00;\n",
    "        %.desc = \"The count is # bits wide; it wraps to 0, and then the flag (%) is set.\";\n",
    "    // the width of the counter %, one of the values that the next table lists\n",
    "    /* software may write % at any time: the # least bits are taken, others are dropped */\n",
    "    field { sw = rw; } %[31:0] = 0; // in cycles\n",
    "    addrmap { alignment = 4; lsb0; littleendian; } % @ 0x#000 += 0x#;\n",
    "\n",
    "    field { sw = rw; } %[`WIDTH - 1:0] = 0;\n",
    "    field { sw = rw; `RESET(8'h#) } %[`BITS(#, )];\n",
    "`ifdef DEBUG\n    field {} %[#:#] = 1; // stops with the core\n`endif\n",
    "`ifdef SIMULATED\n    field { hw = na; } %;\n    reg { regwidth = 8; } %;\n`else\n    reg {} %;\n`endif\n",
];

// Where a paragraph begins among the bytes of all, and where it ends.
#[derive(Clone, Copy, Drop)]
struct Place {
    start: usize,
    end: usize,
}

/// A run over one such text; `size` is 64 for one of full size.
pub fn run_ordinary(
    alloc: Global,
    random: &mut Random,
    size: usize,
    total: &mut Digest,
) -> Result<(), AllocError> {
    let mut all = Text::new(alloc);
    let mut places = Vec::new(alloc);
    for _ in 0..PARAGRAPHS {
        let start = all.len();
        put_paragraph(&mut all, random)?;
        places.push(Place {
            start,
            end: all.len(),
        })?;
    }
    let mut text = Text::new(alloc);
    text.put(MACROS.as_bytes())?;
    let wanted = BYTES / 64 * size.min(64);
    for _ in 0..wanted {
        if text.len() >= wanted {
            break;
        }
        let place = random.below(places.len());
        if let Some(place) = places.get(place).copied() {
            text.put(all.bytes().get(place.start..place.end).unwrap_or(&[]))?;
        }
    }
    run_files(alloc, Limits::standard(), &[("main", text.bytes())], total)
}

// Appends a paragraph: one line in five has a usage or is a conditional.
fn put_paragraph(all: &mut Text, random: &mut Random) -> Result<(), AllocError> {
    for _ in 0..4 + random.below(12) {
        let (plain, used) = LINES.split_at(8);
        let line = if random.below(5) == 0 {
            random.one_of(used)
        } else {
            random.one_of(plain)
        };
        all.pattern(random, line)?;
    }
    Ok(())
}
