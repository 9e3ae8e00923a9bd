//! An address map's header: very many definitions, usages of them in random order, the same header again, and blocks taken out.
use crate::digest::Digest;
use crate::random::Random;
use crate::run::run_files;
use crate::text::Text;
use rdlpp::Limits;
use std::alloc::{AllocError, Global};

// How many macros the headers of full size define: one within the standard limits, one of a large chip, one that is read twice.
const STANDARD: usize = 4_000;

const LARGE: usize = 60_000;

const AGAIN: usize = 11_000;

// How many macros a block has that is taken out.
const BLOCK: usize = 64;

/// A run over three such texts; `size` is 64 for ones of full size.
pub fn run_addresses(
    alloc: Global,
    random: &mut Random,
    size: usize,
    total: &mut Digest,
) -> Result<(), AllocError> {
    let size = size.min(64);
    let (standard, large, again) = (STANDARD / 64 * size, LARGE / 64 * size, AGAIN / 64 * size);
    let mut text = Text::new(alloc);
    for _ in 0..4 {
        put_header(&mut text, random, standard)?;
        put_usages(&mut text, random, standard, 2 * standard)?;
    }
    run_files(alloc, Limits::standard(), &[("main", text.bytes())], total)?;
    let mut text = Text::new(alloc);
    put_header(&mut text, random, large)?;
    put_usages(&mut text, random, large, 3 * large)?;
    run_files(alloc, large_limits(), &[("main", text.bytes())], total)?;
    let mut text = Text::new(alloc);
    put_header(&mut text, random, again)?;
    put_usages(&mut text, random, again, again)?;
    put_removals(&mut text, random, again)?;
    put_header(&mut text, random, again)?;
    put_usages(&mut text, random, again, again)?;
    run_files(alloc, large_limits(), &[("main", text.bytes())], total)
}

// The standard limits, with room for the definitions of a large chip.
fn large_limits() -> Limits {
    let mut limits = Limits::standard();
    limits.definitions = 65_536;
    limits.definition_bytes = 16_777_216;
    limits
}

// Appends the name of a macro.
fn put_macro(text: &mut Text, number: usize) -> Result<(), AllocError> {
    text.put(match number % 4 {
        0 => b"SOC_PERIPH_BASE_",
        1 => b"REG_OFFSET_",
        2 => b"FIELD_MASK_",
        _ => b"CHANNEL_RESET_VALUE_",
    })?;
    text.number(number / 16)?;
    text.put(b"_")?;
    text.number(number)
}

// Appends definitions, so many, with bodies of 5 to 100 bytes.
fn put_header(text: &mut Text, random: &mut Random, count: usize) -> Result<(), AllocError> {
    for number in 0..count {
        text.put(b"`define ")?;
        put_macro(text, number)?;
        let body = random.one_of(&[
            " 32'h#0#\n",
            " (0x#00 + 4 * #)\n",
            " 0x#00 // of %\n",
            " ((1 << #) - 1) | (0x# << #) /* bits # to # */\n",
            " field { sw = rw; hw = r; reset = 0x#; desc = \"%\"; } %[#:#] = 0x#\n",
        ]);
        text.pattern(random, body)?;
    }
    Ok(())
}

// Appends usages in random order of the first macros, so many.
fn put_usages(
    text: &mut Text,
    random: &mut Random,
    macros: usize,
    count: usize,
) -> Result<(), AllocError> {
    for _ in 0..count {
        text.put(b"    reset = `")?;
        put_macro(text, random.below(macros))?;
        text.put(b";\n")?;
    }
    Ok(())
}

// Appends removals of a block in each eight of the first macros, so many.
fn put_removals(text: &mut Text, random: &mut Random, macros: usize) -> Result<(), AllocError> {
    for block in 0..macros / BLOCK {
        if random.below(8) == 0 {
            for place in 0..BLOCK {
                text.put(b"`undef ")?;
                put_macro(text, block.wrapping_mul(BLOCK).wrapping_add(place))?;
                text.put(b"\n")?;
            }
        }
    }
    Ok(())
}
