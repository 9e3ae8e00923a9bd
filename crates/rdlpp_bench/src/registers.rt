//! A chip's register files: calls of families of macros with default texts, five and six deep.
use crate::digest::Digest;
use crate::random::Random;
use crate::run::run_files;
use crate::text::Text;
use rdlpp::Limits;
use std::alloc::{AllocError, Global};

// The bytes of a text of full size, and how many more there may be.
const LEAST_BYTES: usize = 800_000;

const MORE_BYTES: usize = 400_000;

const MACROS: &str = "\
`define SUM(first, second=1) (first + second)
`define RANGE(high, low=0) [high:low]
`define FIELD(word, width=8, access=rw, hard=r, value=0x0, more={}) field { sw = access; hw = hard; \
reset = value; more } word`RANGE(width, );
`define PAIR(word, width=8, access=rw, value=0x0) `FIELD(word, width, access, , value, {onread = rclr; woclr = of(word, width);}) \
`FIELD(shadow, `SUM(width, ), r, w, (0), )
`define REG(word, width=32, access=rw, value=0x0, place=4) reg { regwidth = width; `PAIR(word, `SUM(width, ), access, value) } word @ place;
`define BANK(word, base, width=32, access=rw, value=0x0) regfile { `REG(control, width, rw, value, `SUM(base, 0)) \
`REG(limit, , access, , `SUM(base, 4)) `REG(flags, 4, , value, `SUM(base, 8)) } word @ base;
`define BLOCK(word, base, count=2, width=32, access=rw, value=0x0, title=\"block\", kind={external}) addrmap { name = title; \
`BANK(low, base, width, access, value) `BANK(high, `SUM(base, `SUM(0x40, count)), width, , value) kind } word;
";

const FIELDS: [&str; 4] = [
    "    `FIELD(%, #, , w, , {onread = rclr; desc = \"of %\";})\n",
    "    `FIELD(%, , , , 0x#, )\n",
    "    `FIELD(%, `SUM(#, (#)), r, , , )\n",
    "    field { sw = rw; hw = r; } %[#:0] = 0;\n",
];

const REGISTERS: [&str; 6] = [
    "    `REG(%, , , 0x#, )\n",
    "    `REG(%, 16, r, , 0x#0)\n",
    "    `REG(%, , rw, `SUM(#, ), `SUM(0x#00, {4 * #}))\n",
    "    `REG(%, 8, , , )\n",
    "    `PAIR(%, , r, 0x#)\n",
    "    `PAIR(%, #, , )\n",
];

const BANKS: [&str; 4] = [
    "`BANK(%, 0x#0, , , )\n",
    "`BANK(%, `SUM(0x#00, [#]), 16, r, )\n",
    "`BLOCK(%, 0x#00, , 16, , `SUM(#, (#)), \"bank #, of %\", {alignment = 4; name = f(#, #);})\n",
    "`BLOCK(%, 0x#00, #, , r, , , )\n",
];

/// A run over one such text; `size` is 64 for one of full size.
pub fn run_registers(
    alloc: Global,
    random: &mut Random,
    size: usize,
    total: &mut Digest,
) -> Result<(), AllocError> {
    let mut text = Text::new(alloc);
    text.put(MACROS.as_bytes())?;
    let wanted = (LEAST_BYTES + random.below(MORE_BYTES)) / 64 * size.min(64);
    for _ in 0..wanted {
        if text.len() >= wanted {
            break;
        }
        put_call(&mut text, random)?;
    }
    run_files(alloc, Limits::standard(), &[("main", text.bytes())], total)
}

// Appends a line with a call: a half are of fields, a third of registers, the rest of banks and blocks.
fn put_call(text: &mut Text, random: &mut Random) -> Result<(), AllocError> {
    let pattern = match random.below(12) {
        0..=5 => random.one_of(&FIELDS),
        6..=9 => random.one_of(&REGISTERS),
        _ => random.one_of(&BANKS),
    };
    text.pattern(random, pattern)
}
