// Whether only blanks stand before a place on its line.
ghost use Rattle.std.specs.Prelude.{◌≡◌};
ghost use Rattle.rdlpp_meaning.specs.Parts.{only_blanks};

use rdlpp_scan::is_blank;

/// Whether only blanks stand on the line after bytes, where `first` says whether they did before
/// them.
///
/// Costs time linear in the blanks at the end of the bytes.
pub(crate) fn only_blanks(first: bool, bytes: &[u8]) -> bool
    ensures { result ≡ only_blanks first bytes.now }
{
    for at in (0..bytes.len()).rev() {
        let byte = bytes[at];
        if byte == b'\n' {
            return true;
        }
        if !is_blank(byte) {
            return false;
        }
    }
    first
}
