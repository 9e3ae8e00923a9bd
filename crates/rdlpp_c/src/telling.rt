// How an answer is told: numbers, and texts in a caller's buffers.
ghost use Rattle.std.specs.Prelude.{◌≡◌};
ghost use Rattle.rdlpp_c.specs.Buffers.{overwritten};
ghost use Rattle.rdlpp_c.specs.Telling.{TellsText, limit_place, numbered, outcome_of, name_bytes, word_bytes};

use crate::asking::Answer;
use rdlpp::LimitFault;

// The output is whole.
pub(crate) const WHOLE: u32 = 0;

// A fault ended the output.
pub(crate) const STOPPED: u32 = 1;

// A limit is out of its range.
const BAD_LIMIT: u32 = 2;

// Some bytes that have to be UTF-8 aren't.
pub(crate) const BAD_TEXT: u32 = 3;

// Memory was refused.
pub(crate) const NO_MEMORY: u32 = 4;

// The buffer is full, and more may follow.
pub(crate) const MORE: u32 = 5;

// The handle is closed.
pub(crate) const CLOSED: u32 = 6;

// A source is asked for.
pub(crate) const WANTED: u32 = 7;

// The buffer for a line map is too short.
pub(crate) const SHORT_MAP: u32 = 8;

// A text that is given isn't the one that was given of its path before.
pub(crate) const CHANGED: u32 = 9;

/// How a call ended, in numbers.
#[repr(C)]
#[derive(Clone, Copy)]
pub struct Outcome {
    /// 0: the output is whole; 1: a fault ended it; 2: a limit is out of its range; 3: a path, a name
    /// or a body isn't UTF-8; 4: memory was refused; 5: more may follow; 6: the handle is closed; 7: a
    /// source is asked for; 8: the buffer for a line map is too short.
    pub status: u32,
    /// Of status 1 the number of the fault, of 2 the place of the limit among the fields, from 1;
    /// else 0.
    pub number: u32,
    /// Of status 1 the shown line of the fault, which may be 0; else 0.
    pub line: u64,
    /// Of status 0 and 1 how many bytes the output has, `u64::MAX` where they are more; of a read with
    /// status 0, 1, 5 and 7 how many bytes it wrote; else 0.
    pub length: u64,
    /// Of status 1 how many bytes the shown name has, and of 7 the path that is asked for; else 0.
    pub name_length: usize,
    /// Of status 1 how many bytes the word has that the fault is about; else 0.
    pub word_length: usize,
}

// An outcome of a status and a number alone.
pub(crate) fn numbered(status: u32, number: u32) -> Outcome
    ensures { result ≡ numbered status number }
{
    Outcome {
        status,
        number,
        line: 0,
        length: 0,
        name_length: 0,
        word_length: 0,
    }
}

// The place of a limit among the fields, from 1.
fn limit_place(limit: LimitFault) -> u32
    ensures { result ≡ limit_place limit }
{
    match limit {
        LimitFault::Depth => 1,
        LimitFault::Includes => 2,
        LimitFault::LineBytes => 3,
        LimitFault::SourceBytes => 4,
        LimitFault::ArgumentBytes => 5,
        LimitFault::DefinitionBytes => 6,
        LimitFault::Definitions => 7,
        LimitFault::Conditions => 8,
        LimitFault::OutputBytes => 9,
    }
}

// Writes the front of a text over the first bytes of a buffer, and answers the text's whole length.
pub(crate) fn tell_text(text: &[u8], to: &mut [u8]) -> usize
    ensures { TellsText text.now to.old to.new result }
{
    let len = text.len().min(to.len());
    to[..len].copy_from_slice(&text[..len]);
    text.len()
}

// The numbers of an answer.
pub(crate) fn outcome_of(answer: &Answer) -> Outcome
    ensures { result ≡ outcome_of answer.now }
{
    match answer {
        Answer::Whole(count) => Outcome {
            length: *count,
            ..numbered(WHOLE, 0)
        },
        Answer::Stopped(run) => Outcome {
            status: STOPPED,
            number: run.fault.kind.number(),
            line: run.fault.line,
            length: run.written,
            name_length: run.fault.name.len(),
            word_length: run.fault.word.len(),
        },
        Answer::BadLimit(limit) => numbered(BAD_LIMIT, limit_place(*limit)),
        Answer::BadText => numbered(BAD_TEXT, 0),
        Answer::NoMemory => numbered(NO_MEMORY, 0),
    }
}

// Writes the shown name and the word of an answer's fault, where it has one.
pub(crate) fn tell_fault(answer: &Answer, name: &mut [u8], word: &mut [u8])
    ensures name { name.new ≡ overwritten (name_bytes answer.now) name.old }
    ensures word { word.new ≡ overwritten (word_bytes answer.now) word.old }
{
    if let Answer::Stopped(run) = answer {
        let _name_len = tell_text(run.fault.name.as_bytes(), name);
        let _word_len = tell_text(run.fault.word.as_bytes(), word);
    }
}
