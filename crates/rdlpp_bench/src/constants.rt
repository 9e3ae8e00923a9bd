//! Deep constants: macros that name macros that name macros, and calls that stand in their own actual.
use crate::digest::Digest;
use crate::random::Random;
use crate::run::run_files;
use crate::text::Text;
use rdlpp::Limits;
use std::alloc::{AllocError, Global};

// How many chains of constants a text defines, and how many lines use them.
const CHAINS: usize = 48;

const LINES: usize = 200;

const MACROS: &str = "\
`define ADD(a, b) (a + b)
`define WRAP(x) <x>
`define PICK(a, b, c) {a, b}[c]
`define TWICE(x) x x
";

/// A run over one such text; `size` is 64 for one of full size.
pub fn run_constants(
    alloc: Global,
    random: &mut Random,
    size: usize,
    total: &mut Digest,
) -> Result<(), AllocError> {
    let mut text = Text::new(alloc);
    text.put(MACROS.as_bytes())?;
    let mut last = [0; CHAINS];
    for (chain, depth) in last.iter_mut().enumerate() {
        *depth = 10 + random.below(21);
        put_chain(&mut text, random, chain, *depth)?;
    }
    for _ in 0..LINES * size.min(64) {
        let chain = random.below(CHAINS);
        let depth = last.get(chain).copied().unwrap_or(0);
        put_line(&mut text, random, chain, depth)?;
    }
    run_files(alloc, Limits::standard(), &[("main", text.bytes())], total)
}

// Appends a chain of constants. Up to four of them name the one below twice.
fn put_chain(
    text: &mut Text,
    random: &mut Random,
    chain: usize,
    depth: usize,
) -> Result<(), AllocError> {
    text.pattern(random, "`define ")?;
    put_constant(text, chain, 0)?;
    text.pattern(random, " 0x#\n")?;
    let mut doubled = 0;
    for place in 0..depth.min(64) {
        text.pattern(random, "`define ")?;
        put_constant(text, chain, place + 1)?;
        text.pattern(random, " (`")?;
        put_constant(text, chain, place)?;
        if doubled < 4 && random.below(6) == 0 {
            doubled += 1;
            text.pattern(random, " + `")?;
            put_constant(text, chain, place)?;
        }
        text.pattern(random, " + #)\n")?;
    }
    Ok(())
}

// Appends the name of a constant.
fn put_constant(text: &mut Text, chain: usize, place: usize) -> Result<(), AllocError> {
    text.put(b"OFFSET_")?;
    text.number(chain)?;
    text.put(b"_")?;
    text.number(place)
}

// Appends a line that uses a constant, or calls that stand 4 to 27 deep in their own actual.
fn put_line(
    text: &mut Text,
    random: &mut Random,
    chain: usize,
    depth: usize,
) -> Result<(), AllocError> {
    if random.below(8) != 0 {
        text.pattern(random, "    % = `")?;
        put_constant(text, chain, depth)?;
        return text.pattern(random, " - #;\n");
    }
    text.pattern(random, "    % = ")?;
    let deep = 4 + random.below(24);
    for _ in 0..deep {
        let call = random.one_of(&["`WRAP(", "`ADD(#, ", "`PICK([#, #], #, "]);
        text.pattern(random, call)?;
    }
    text.pattern(random, "`OFFSET_0_3")?;
    for _ in 0..deep {
        text.put(b")")?;
    }
    text.put(b";\n")
}
