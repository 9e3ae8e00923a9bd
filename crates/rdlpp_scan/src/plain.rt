// The search for the end of ordinary text.
ghost use Rattle.std.specs.Prelude.{◌≡◌, ◌≤◌, ◌<◌, ◌+◌, ◌==◌, ℕ, false, if◌then◌else◌, length, map, take, drop, slice_index};
ghost use Rattle.std.specs.Int.Count.{count_trailing_zeros};
ghost use Rattle.std.specs.Simd.Lanes.{mask_l};
ghost use Rattle.rdlpp_scan.specs.Bytes.{is_line_end};
ghost use Rattle.rdlpp_scan.specs.PlainTexts.{is_mark, IsPassed};
ghost use Rattle.rdlpp_scan.specs.SourceTokens.{line_ends};
ghost use Rattle.rdlpp_scan.specs.Tokens.{plain_len, stops_plain_text};

use crate::bytes::{begins_perl, byte_at};
use std::simd::prelude::*;

/// How much ordinary text bytes begin with.
#[derive(Clone, Copy)]
pub struct PlainText {
    /// How many bytes.
    pub len: usize,
    /// How many of them are LF.
    pub lines: usize,
}

// The bytes of a block: one vector.
const BLOCK_BYTES: usize = 16;

/// How many bytes of ordinary text `bytes` begins with: those before the first backquote, `"`,
/// `//`, `/*` or `<%`, or all of them (this project's profile).
///
/// Costs time linear in the place of the first backquote, `"` or comment, or else in the length.
pub fn plain_text_len(bytes: &[u8]) -> usize
    ensures value { result ≡ plain_len bytes.now }
    ensures inside { result ≤ length bytes.now }
{
    plain_text(bytes).len
}

/// The ordinary text that `bytes` begins with, as `plain_text_len` tells it, and the line ends in it,
/// in one pass.
///
/// Costs time linear in the bytes of the answer.
pub fn plain_text(bytes: &[u8]) -> PlainText
    ensures len { result.len ≡ plain_len bytes.now }
    ensures inside { result.len ≤ length bytes.now }
    ensures lines { result.lines ≡ line_ends (take result.len bytes.now) }
{
    let mut run = before_mark(bytes, PlainText { len: 0, lines: 0 });
    while run.len < bytes.len() {
        if stops_plain_text(&bytes[run.len..]) {
            return run;
        }
        run = before_mark(bytes, after_byte(bytes, run));
    }
    run
}

// The ordinary text up to the next byte at which it may stop, or to the end.
fn before_mark(bytes: &[u8], from: PlainText) -> PlainText
    requires { IsPassed bytes.now from.len from.lines }
    ensures passed { IsPassed bytes.now result.len result.lines }
    ensures following { from.len ≤ result.len }
{
    let run = before_marked_block(bytes, from);
    if bytes.len() - run.len < BLOCK_BYTES {
        return before_near_mark(bytes, run);
    }
    let front = inert_front(bytes, run.len);
    PlainText {
        len: run.len + front.len,
        lines: run.lines + front.lines,
    }
}

// The ordinary text up to the next block with a byte at which it may stop, or to fewer bytes than a block has.
fn before_marked_block(bytes: &[u8], from: PlainText) -> PlainText
    requires { IsPassed bytes.now from.len from.lines }
    ensures passed { IsPassed bytes.now result.len result.lines }
    ensures following { from.len ≤ result.len }
{
    let mut run = from;
    while bytes.len() - run.len >= BLOCK_BYTES {
        let block = u8x16::from_slice(&bytes[run.len..]);
        if marks_in(block) != 0 {
            return run;
        }
        run = PlainText {
            len: run.len + BLOCK_BYTES,
            lines: run.lines + ends_in(block).count_ones() as usize,
        };
    }
    run
}

// The bytes of a block, which begins at a place, up to the first one at which ordinary text may stop.
#[inline(always)]
fn inert_front(bytes: &[u8], at: usize) -> PlainText
    requires { at + 16 ≤ length bytes.now }
    ensures few { result.len ≤ 16 }
    ensures inert { (j : ℕ) → at ≤ j → j < at + result.len → is_mark (slice_index bytes.now j) ≡ false }
    ensures lines { result.lines ≡ line_ends (take result.len (drop at bytes.now)) }
{
    let block = u8x16::from_slice(&bytes[at..]);
    let len = first_bit(marks_in(block));
    let ends = ends_in(block) % (1 << len);
    PlainText {
        len,
        lines: ends.count_ones() as usize,
    }
}

// Which is the first of 16 bits that is set; 16 where none is.
#[inline(always)]
fn first_bit(bits: u64) -> usize
    ensures { result ≡ (if bits == 0 then 16 else count_trailing_zeros 64 bits) }
{
    if bits == 0 {
        BLOCK_BYTES
    } else {
        bits.trailing_zeros() as usize
    }
}

// At which bytes of a block ordinary text may stop: a bit for each of them.
//
// No two bytes at which it may stop have the same last four bits, so that each byte is compared with the one that has its own; where
// there is none, with 0, whose last bits are others.
#[inline(always)]
fn marks_in(block: u8x16) -> u64
    requires { length block ≡ 16 }
    ensures { result ≡ mask_l (map is_mark block) }
{
    let marks = u8x16::from_array([b'`', 0, b'"', 0, 0, 0, 0, 0, 0, 0, 0, 0, b'<', 0, 0, b'/']);
    let like = marks.swizzle_dyn(block & u8x16::splat(15));
    like.simd_eq(block).to_bitmask()
}

// Which bytes of a block are LF: a bit for each of them.
#[inline(always)]
fn ends_in(block: u8x16) -> u64
    requires { length block ≡ 16 }
    ensures { result ≡ mask_l (map is_line_end block) }
{
    block.simd_eq(u8x16::splat(b'\n')).to_bitmask()
}

// The ordinary text up to the next byte at which it may stop, or to the end, byte by byte.
fn before_near_mark(bytes: &[u8], from: PlainText) -> PlainText
    requires { IsPassed bytes.now from.len from.lines }
    ensures passed { IsPassed bytes.now result.len result.lines }
    ensures following { from.len ≤ result.len }
{
    let mut run = from;
    while run.len < bytes.len() {
        let b = bytes[run.len];
        if b == b'`' || b == b'"' || b == b'/' || b == b'<' {
            return run;
        }
        run = after_byte(bytes, run);
    }
    run
}

// One more byte of ordinary text.
fn after_byte(bytes: &[u8], run: PlainText) -> PlainText
    requires passed { IsPassed bytes.now run.len run.lines }
    requires some { run.len < length bytes.now }
    requires goes_on { stops_plain_text (drop run.len bytes.now) ≡ false }
    ensures passed { IsPassed bytes.now result.len result.lines }
    ensures one { result.len ≡ run.len + 1 }
{
    PlainText {
        len: run.len + 1,
        lines: run.lines + line_end_at(bytes, run.len),
    }
}

// How many LF stand at a place: one or none.
fn line_end_at(bytes: &[u8], at: usize) -> usize
    requires { at < length bytes.now }
    ensures { line_ends (take at bytes.now) + result ≡ line_ends (take (at + 1) bytes.now) }
{
    if bytes[at] == b'\n' { 1 } else { 0 }
}

/// Whether ordinary text stops in front of `bytes`: at a backquote, `"`, `//`, `/*` or `<%` (this
/// project's profile).
#[tactic(auto, unfolding(crate::specs::Tokens::stops_plain_text, crate::specs::Bytes::begins_line_comment, crate::specs::Bytes::begins_block_comment))]
pub fn stops_plain_text(bytes: &[u8]) -> bool
    ensures { result ≡ stops_plain_text bytes.now }
{
    let b = byte_at(bytes, 0);
    let next = byte_at(bytes, 1);
    b == b'`' || b == b'"' || b == b'/' && (next == b'/' || next == b'*') || begins_perl(bytes)
}
