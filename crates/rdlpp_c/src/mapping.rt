// The call by which a program in C reads an output with its line map.
ghost use Rattle.std.specs.Prelude.{◌≡◌, ◌-◌, ◌≤◌, length, nat_lt};
ghost use Rattle.rdlpp_c.specs.Mapping.{MapsOpen, ReadsLines, ReadsMapped, ReadsPart};
ghost use Rattle.rdlpp_c.specs.Streaming.{IsQuiet, ReadsQuietly, StaysQuiet};

use crate::handle::{Handle, put, take};
use crate::stream::{Stream, part_place, told_read};
use crate::telling::{CLOSED, Outcome, SHORT_MAP, numbered};
use arrayvec::ArrayVec;
use rdlpp::ReadPart;
use rdlpp_expand::READ_ALLOWANCE;
use rdlpp_reports::{LineRun, write_run};
use std::alloc::Global;

// How many bytes a line of a map has at most, and some more.
const MAP_ROOM: usize = 1_100;

/// How a mapped read ended, in numbers.
#[repr(C)]
#[derive(Clone, Copy)]
pub struct Mapped {
    /// As of `rdlpp_read`; 8 where the buffer for the map is too short.
    pub outcome: Outcome,
    /// How many bytes of the map were written.
    pub map_length: usize,
}

/// Writes the next bytes of an output to `out` as `rdlpp_read` does, and the lines of the line map that end with
/// them to `map`: all calls together write those of a line map file after its first line.
///
/// The read also ends, by the status 5, where fewer than 1,100 bytes of `map` are left. Where it has fewer to begin
/// with the status is 8, and nothing is written.
#[unsafe(no_mangle)]
pub extern "C" fn rdlpp_read_mapped(
    alloc: Global,
    handle: &mut Handle,
    out: &mut [u8],
    map: &mut [u8],
    name: &mut [u8],
    word: &mut [u8],
) -> Mapped
    ensures reads { ReadsMapped (nat_lt (length map.old) 1100) (length map.old - result.map_length)
        (record { out = out.old; name = name.old; word = word.old }) (record { out = out.new; name = name.new; word = word.new }) handle.old.slot.value handle.new.slot.value result.outcome }
    ensures map { result.map_length ≤ length map.old }
    ensures quiet { ReadsQuietly handle.old.slot.value handle.new.slot.value result.outcome }
{
    let Some(mut stream) = take(alloc, handle) else {
        return mapped_of(numbered(CLOSED, 0), 0);
    };
    let mapped = read_mapped(&mut stream, out, map, name, word);
    put(handle, stream);
    mapped
}

// Reads the next bytes of an output with the lines of its map, and tells how that ended.
fn read_mapped(
    stream: &mut Stream,
    out: &mut [u8],
    map: &mut [u8],
    name: &mut [u8],
    word: &mut [u8],
) -> Mapped
    ensures reads { MapsOpen (nat_lt (length map.old) 1100) (length map.old - result.map_length)
        (record { out = out.old; name = name.old; word = word.old }) (record { out = out.new; name = name.new; word = word.new }) stream.old stream.new result.outcome }
    ensures map { result.map_length ≤ length map.old }
    ensures quiet { IsQuiet stream.old.reading.engine → StaysQuiet stream.new result.outcome }
{
    if map.len() < MAP_ROOM {
        return mapped_of(numbered(SHORT_MAP, 0), 0);
    }
    stream.take_up();
    let read = read_lines(stream, out, map);
    mapped_of(told_read(stream, &read.part, name, word), read.map_len)
}

// An outcome, and how many bytes of the map were written.
fn mapped_of(outcome: Outcome, map_length: usize) -> Mapped
    ensures { result ≡ record { outcome = outcome; map_length = map_length } }
{
    Mapped {
        outcome,
        map_length,
    }
}

// What was read: a part of the output, and so many bytes of the map.
#[derive(Clone, Copy)]
struct Lines {
    part: ReadPart,
    map_len: usize,
}

// Reads piece by piece, and writes the runs of lines that end.
fn read_lines(stream: &mut Stream, out: &mut [u8], map: &mut [u8]) -> Lines
    ensures lines { ReadsLines stream.old stream.new out.old out.new result.part.len result.part.ending (length map.old - result.map_len) }
    ensures map { result.map_len ≤ length map.old }
{
    let mut len = 0;
    let mut map_len = 0;
    let mut left = READ_ALLOWANCE;
    while len < out.len() && map.len() - map_len >= MAP_ROOM {
        let read = read_part(stream, &mut out[len..], &mut map[map_len..], &mut left);
        len += read.part.len;
        map_len += read.map_len;
        if read.part.ending.is_some() || read.part.len == 0 {
            let ending = read.part.ending;
            return Lines {
                part: ReadPart { len, ending },
                map_len,
            };
        }
    }
    Lines {
        part: ReadPart { len, ending: None },
        map_len,
    }
}

// Reads a part of a piece, by what is left for steps without bytes, and writes the run of lines that ended, if one did.
fn read_part(stream: &mut Stream, out: &mut [u8], map: &mut [u8], left: &mut usize) -> Lines
    requires room { 1100 ≤ length map.old }
    requires left { left.old ≤ 65535 }
    ensures part { ReadsPart stream.old stream.new out.old out.new result.part.len result.part.ending }
    ensures inside { result.part.len ≤ length out.new }
    ensures map { result.map_len ≤ length map.new }
    ensures left { left.new ≤ left.old }
{
    let part = stream.read_piece(out, left);
    let map_len = map_part(stream, &part, &out[..part.len], map);
    Lines { part, map_len }
}

// Writes the run of lines that ended with a part of a piece, if one did. Answers how many bytes of the map were written.
fn map_part(stream: &mut Stream, part: &ReadPart, piece: &[u8], map: &mut [u8]) -> usize
    requires { 1100 ≤ length map.old }
    ensures len { result ≤ length map.new }
    ensures only { stream.new ≡ record stream.old { lines = stream.new.lines } }
{
    match part.ending {
        None => {
            let Some(place) = part_place(&stream.reading, &stream.part) else {
                return 0;
            };
            if !stream.lines.take(piece, &place) {
                return 0;
            }
            write_line(stream.lines.ended(), map)
        }
        // Where a source is asked for the last run goes on.
        Some(_) => {
            if stream.wanted(part.ending).is_some() || !stream.lines.finish() {
                return 0;
            }
            write_line(stream.lines.ended(), map)
        }
    }
}

// Writes a run as a line of the map, and answers how many bytes it has.
fn write_line(run: &LineRun, map: &mut [u8]) -> usize
    requires { 1100 ≤ length map.old }
    ensures { result ≤ length map.new }
{
    let mut line = ArrayVec::<u8, MAP_ROOM>::new();
    // A line has less than there is room for.
    let _whole = write_run(run, &mut line);
    let len = line.len();
    map[..len].copy_from_slice(&line);
    len
}
