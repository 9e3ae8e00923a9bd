// The classes of bytes, and runs of them.
ghost use Rattle.std.specs.Prelude.{◌≡◌, ◌<◌, ◌≤◌, length, slice_index};
ghost use Rattle.std.specs.List.{prefix_len};
ghost use Rattle.rdlpp_scan.specs.Bytes.{
  begins_perl,
  is_blank,
  is_digit,
  is_letter,
  is_inert,
  is_word,
};

// A class of bytes: those of names and numbers.
const WORD: u8 = 1;

// Another one: those that are blanks or tokens by themselves.
const QUIET: u8 = 2;

// Of each byte a digit, whose low two bits are its classes: most bytes of a text are asked for one of them.
static CLASSES: [u8; 256] = *b"\
    22222222222222222222222222222222\
    22022220222222201111111111220222\
    21111111111111111111111111120221\
    01111111111111111111111111122222\
    22222222222222222222222222222222\
    22222222222222222222222222222222\
    22222222222222222222222222222222\
    22222222222222222222222222222222";

/// The byte at a place, or 0 past the end.
pub fn byte_at(bytes: &[u8], at: usize) -> u8
    ensures value { result ≡ slice_index bytes.now at }
    ensures inside { 0 < result → at < length bytes.now }
{
    bytes.get(at).copied().unwrap_or(0)
}

/// Whether a byte is a space, tab, CR, VT or FF (this project's profile).
#[tactic(auto, unfolding(crate::specs::Bytes::is_blank))]
pub fn is_blank(b: u8) -> bool
    ensures { result ≡ is_blank b }
{
    b == b' ' || b == b'\t' || b == b'\r' || b == 11 || b == 12
}

/// Whether a byte begins a name: a letter or `_` (IEEE 1364-2001, identifiers).
#[tactic(auto, unfolding(crate::specs::Bytes::is_letter))]
pub fn is_letter(b: u8) -> bool
    ensures { result ≡ is_letter b }
{
    b'A' <= b && b <= b'Z' || b'a' <= b && b <= b'z' || b == b'_'
}

/// How many bytes of a name or a number a text begins with: letters, `_` and digits (IEEE 1364-2001,
/// identifiers).
///
/// Costs time linear in that count.
pub fn word_bytes(bytes: &[u8]) -> usize
    ensures value { result ≡ prefix_len is_word bytes.now }
    ensures inside { result ≤ length bytes.now }
{
    bytes.iter().take_while(|b| is_word(**b)).count()
}

/// How many bytes a text begins with of which each is a blank or a token by itself, and none begins a name, a
/// number, a usage, a string, a comment or `<%` (this project's profile).
///
/// Costs time linear in that count.
pub fn inert_bytes(bytes: &[u8]) -> usize
    ensures value { result ≡ prefix_len is_inert bytes.now }
    ensures inside { result ≤ length bytes.now }
{
    bytes.iter().take_while(|b| is_inert(**b)).count()
}

fn is_inert(b: u8) -> bool
    ensures { result ≡ is_inert b }
{
    CLASSES[b as usize] & QUIET != 0
}

/// Whether a byte is a decimal digit (IEEE 1364-2001, numbers).
#[tactic(auto, unfolding(crate::specs::Bytes::is_digit))]
pub fn is_digit(b: u8) -> bool
    ensures { result ≡ is_digit b }
{
    b'0' <= b && b <= b'9'
}

pub(crate) fn is_word(b: u8) -> bool
    ensures { result ≡ is_word b }
{
    CLASSES[b as usize] & WORD != 0
}

#[tactic(auto, unfolding(crate::specs::Bytes::begins_perl))]
pub(crate) fn begins_perl(bytes: &[u8]) -> bool
    ensures { result ≡ begins_perl bytes.now }
{
    byte_at(bytes, 0) == b'<' && byte_at(bytes, 1) == b'%'
}

/// How many blanks a text begins with: white space without line ends (IEEE 1364-2001, white space; CR and VT by
/// this project's profile).
pub fn blanks(bytes: &[u8]) -> usize
    ensures value { result ≡ prefix_len is_blank bytes.now }
    ensures inside { result ≤ length bytes.now }
{
    bytes.iter().take_while(|b| is_blank(**b)).count()
}
