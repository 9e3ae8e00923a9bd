// How the rows spell bytes.
use std::alloc::{AllocError, Global};

// What a spelled byte begins with.
#[derive(Clone, Copy)]
enum Escape {
    // Nothing: the next byte stands for itself.
    None,
    // A backslash was read.
    Backslash,
    // `\x` was read.
    HighDigit,
    // `\x` and a first digit were read.
    LowDigit(u8),
}

/// The bytes that a text of a row stands for.
///
/// `\n`, `\r` and `\t` are LF, CR and a tab, `\x` with two hexadecimal digits is that byte, and a backslash before any other
/// byte gives that byte. `{{5:ab}}` is `ab` five times; in it `{#}` counts from 0 and `{+}` from 1.
pub fn spelled(alloc: Global, text: &str) -> Result<Vec<u8>, AllocError> {
    let mut bytes = Vec::new(alloc);
    for (place, part) in text.split("{{").enumerate() {
        match part.split_once("}}") {
            Some((run, after)) if place > 0 => {
                append_run(alloc, &mut bytes, run)?;
                append(&mut bytes, after)?;
            }
            _ => append(&mut bytes, part)?,
        }
    }
    Ok(bytes)
}

/// A text with each `{#}` and `{+}` in it counted: this number, and the next one.
pub fn numbered(alloc: Global, text: &str, number: u32) -> Result<String, AllocError> {
    let counted = with_number(alloc, text, "{#}", number)?;
    with_number(alloc, counted.as_str(), "{+}", number.saturating_add(1))
}

// A text with a number in the place of each mark in it.
fn with_number(alloc: Global, text: &str, mark: &str, number: u32) -> Result<String, AllocError> {
    let shown = format!(in alloc; "{number}")?;
    let mut whole = String::new(alloc);
    for (place, part) in text.split(mark).enumerate() {
        if place > 0 {
            whole.push_str(shown.as_str())?;
        }
        whole.push_str(part)?;
    }
    Ok(whole)
}

// Appends a text so many times, as `5:ab` asks for.
fn append_run(alloc: Global, bytes: &mut Vec<u8>, run: &str) -> Result<(), AllocError> {
    let (count, text) = run.split_once(':').unwrap_or(("1", run));
    let count = count.parse::<u32>().unwrap_or(0);
    if text.contains("{") {
        for number in 0..count {
            append(bytes, numbered(alloc, text, number)?.as_str())?;
        }
        return Ok(());
    }
    let mut once = Vec::new(alloc);
    append(&mut once, text)?;
    for _ in 0..count {
        bytes.extend_from_slice(once.as_slice())?;
    }
    Ok(())
}

// Appends the bytes of a text without runs.
fn append(bytes: &mut Vec<u8>, text: &str) -> Result<(), AllocError> {
    let mut escape = Escape::None;
    for byte in text.as_bytes() {
        escape = append_byte(bytes, escape, *byte)?;
    }
    Ok(())
}

// Appends what a byte gives after such a beginning, and answers what has begun with it.
fn append_byte(bytes: &mut Vec<u8>, escape: Escape, byte: u8) -> Result<Escape, AllocError> {
    match (escape, byte) {
        (Escape::None, b'\\') => return Ok(Escape::Backslash),
        (Escape::Backslash, b'x') => return Ok(Escape::HighDigit),
        (Escape::HighDigit, digit) => return Ok(Escape::LowDigit(value_of(digit))),
        (Escape::Backslash, b'n') => bytes.push(b'\n')?,
        (Escape::Backslash, b'r') => bytes.push(b'\r')?,
        (Escape::Backslash, b't') => bytes.push(b'\t')?,
        (Escape::LowDigit(high), digit) => {
            bytes.push(high.wrapping_mul(16).wrapping_add(value_of(digit)))?;
        }
        (_, _) => bytes.push(byte)?,
    }
    Ok(Escape::None)
}

// The value of a hexadecimal digit.
fn value_of(digit: u8) -> u8 {
    match digit {
        b'0'..=b'9' => digit - b'0',
        b'a'..=b'f' => digit - b'a' + 10,
        _ => 0,
    }
}
