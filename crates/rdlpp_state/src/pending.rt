// Texts that are pending: they are lent before anything that follows in the source.
ghost use Rattle.std.specs.Prelude.{◌≡◌, ◌↔◌, ℕ, List, None, Some, ◌+◌, ◌<◌, ◌≤◌, ◌^◌, IfNone, IfSome, IsTrue, decimal, if◌then◌else◌, length, take};
ghost use Rattle.rdlpp_state.specs.Pending.{TakesPiece, after_piece, cut_to, digits_of, first_piece, nothing_pending, origin_pending, pending_number, part_bytes};

use arrayvec::ArrayString;
use itoa::Buffer;
use std::marker::Model;

// The LF bytes that are lent at once at most.
const LINE_ENDS: &[u8; 16] = b"\n\n\n\n\n\n\n\n\n\n\n\n\n\n\n\n";

// What an origin line begins with.
const LABEL: &[u8; 11] = b"// origin: ";

/// The parts of the texts that are pending.
#[derive(Clone, Copy)]
pub enum PendingPart {
    /// LF bytes.
    LineEnds,
    /// What an origin line begins with.
    Label,
    /// The name that is shown.
    Name,
    /// What stands after the name in an origin line.
    Colon,
    /// The number of an origin line.
    Digits,
}

/// The first bytes of a part.
#[derive(Clone, Copy)]
pub struct PendingPiece {
    pub part: PendingPart,
    pub len: usize,
}

// An origin line that is pending from a part of it on.
#[derive(Drop)]
struct OriginLine {
    part: PendingPart,
    number: u64,
    // the decimal digits of the number
    digits: ArrayString<20>,
}

/// Texts that are pending: LF bytes, and after them an origin line.
#[derive(Drop)]
pub struct Pending {
    line_ends: usize,
    origin: Option<OriginLine>,
}

impl Model for OriginLine {
    ghost use Rattle.std.specs.Prelude.{◌≡◌, decimal};
    ghost use Rattle.rdlpp_state.specs.Pending.{OriginView};

    ghost Value = { OriginView };

    ghost view = { λ o. record { part = o.part; number = o.number } };

    ghost invariant = { λ o. o.digits.bytes ≡ decimal o.number };
}

impl Model for Pending {
    ghost use Rattle.rdlpp_state.specs.Pending.{PendingView};

    ghost Value = { PendingView };

    ghost view = { λ o. record { line_ends = o.line_ends; origin = o.origin } };
}

impl PendingPiece {
    /// The first `len` bytes of it.
    #[tactic(auto, unfolding(crate::specs::Pending::cut_to))]
    pub fn cut(self, len: usize) -> Self
        ensures { result ≡ cut_to self len }
    {
        PendingPiece { len, ..self }
    }
}

impl OriginLine {
    // The whole line with a number.
    fn new(line: u64) -> Self
        ensures { result ≡ record { part = PendingPart.Label; number = line } }
    {
        let mut buffer = Buffer::new();
        let mut digits = ArrayString::new();
        digits.push_str(buffer.format(line));
        OriginLine {
            part: PendingPart::Label,
            number: line,
            digits,
        }
    }

    // Its first piece, where a name of `name_len` bytes is shown.
    #[tactic(auto, unfolding(crate::specs::Pending::first_piece))]
    fn first_piece(&self, name_len: usize) -> PendingPiece
        ensures { result ≡ first_piece name_len self.now }
    {
        let len = match self.part {
            PendingPart::LineEnds => 1,
            PendingPart::Label => LABEL.len(),
            PendingPart::Name => name_len,
            PendingPart::Colon => 1,
            PendingPart::Digits => self.digits.len(),
        };
        PendingPiece {
            part: self.part,
            len,
        }
    }

    // Passes its first piece, and answers whether more of it is pending then.
    #[tactic(auto, unfolding(crate::specs::Pending::after_piece))]
    fn pass_piece(&mut self) -> bool
        ensures { after_piece self.old ≡ (if result then Some self.new else None) }
    {
        self.part = match self.part {
            PendingPart::LineEnds => return false,
            PendingPart::Label => PendingPart::Name,
            PendingPart::Name => PendingPart::Colon,
            PendingPart::Colon => PendingPart::Digits,
            PendingPart::Digits => PendingPart::LineEnds,
        };
        true
    }
}

impl Pending {
    /// Nothing.
    #[tactic(auto, unfolding(crate::specs::Pending::nothing_pending))]
    pub fn nothing() -> Self
        ensures { result ≡ nothing_pending }
    {
        Pending {
            line_ends: 0,
            origin: None,
        }
    }

    /// Whether nothing is pending.
    pub fn is_nothing(&self) -> bool
        ensures { IsTrue result ↔ (self.now ≡ nothing_pending) }
    {
        self.line_ends == 0 && self.origin.is_none()
    }

    /// How many LF bytes are pending.
    pub fn line_ends(&self) -> usize
        ensures { result ≡ self.now.line_ends }
    {
        self.line_ends
    }

    /// The number of the origin line that is pending, or of what is left of it.
    pub fn origin_number(&self) -> Option<u64>
        ensures { result ≡ pending_number self.now.origin }
    {
        match &self.origin {
            None => None,
            Some(line) => Some(line.number),
        }
    }

    /// Queues so many LF bytes more, before the origin line that is pending.
    pub fn queue_line_ends(&mut self, count: usize)
        requires { self.old.line_ends + count < 2 ^ 64 }
        ensures { self.new ≡ record self.old { line_ends = self.old.line_ends + count } }
    {
        self.line_ends += count;
    }

    /// Queues the origin line with a number, under the name that is shown, in the place of any other; or
    /// none, where origin lines aren't asked for.
    #[tactic(auto, unfolding(crate::specs::Pending::origin_pending))]
    pub fn queue_origin(&mut self, asked: bool, line: u64)
        ensures { self.new ≡ record self.old { origin = origin_pending asked line } }
    {
        self.origin = if asked {
            Some(OriginLine::new(line))
        } else {
            None
        };
    }

    /// Takes out the next piece, where a name of `name_len` bytes is shown.
    pub fn take(&mut self, name_len: usize) -> Option<PendingPiece>
        ensures nothing { IfNone result ((self.old ≡ nothing_pending) × (self.new ≡ self.old)) }
        ensures piece { IfSome result (λ piece. (name : List ℕ) → length name ≡ name_len → TakesPiece name self.old self.new piece) }
    {
        if self.line_ends > 0 {
            let len = self.line_ends.min(LINE_ENDS.len());
            self.line_ends -= len;
            return Some(PendingPiece {
                part: PendingPart::LineEnds,
                len,
            });
        }
        match &mut self.origin {
            None => None,
            Some(line) => {
                let piece = line.first_piece(name_len);
                if !line.pass_piece() {
                    self.origin = None;
                }
                Some(piece)
            }
        }
    }

    /// The bytes of a piece, where `name` is shown.
    #[tactic(auto, unfolding(crate::specs::Pending::part_bytes, crate::specs::Pending::digits_of))]
    pub fn bytes<'a>(&'a self, piece: PendingPiece, name: &'a str) -> &'a [u8]
        requires { piece.len ≤ length (part_bytes piece.part name.now (digits_of self.now.origin)) }
        ensures { result.now ≡ take piece.len (part_bytes piece.part name.now (digits_of self.now.origin)) }
    {
        &self.part(piece.part, name)[..piece.len]
    }

    // The bytes of a part, where `name` is shown.
    #[tactic(auto, unfolding(crate::specs::Pending::part_bytes, crate::specs::Pending::digits_of))]
    fn part<'a>(&'a self, part: PendingPart, name: &'a str) -> &'a [u8]
        ensures { result.now ≡ part_bytes part name.now (digits_of self.now.origin) }
    {
        match part {
            PendingPart::LineEnds => LINE_ENDS,
            PendingPart::Label => LABEL,
            PendingPart::Name => name.as_bytes(),
            PendingPart::Colon => b":",
            PendingPart::Digits => match &self.origin {
                None => &[],
                Some(line) => line.digits.as_bytes(),
            },
        }
    }
}
