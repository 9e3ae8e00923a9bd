// What the bytes after the accepted lines of a source allow, over slices.
ghost use Rattle.std.specs.Prelude.{◌≡◌, ◌≤◌, length, take};
ghost use Rattle.rdlpp_scan.specs.Lines.{whole_lines_len};
ghost use Rattle.rdlpp_read.specs.Ahead.{Allows};

use rdlpp_scan::last_line_end;

// What the bytes after the accepted lines allow.
#[derive(Clone, Copy)]
pub(crate) enum Ahead {
    // No line end yet, and more may follow.
    Unended,
    // So many bytes of whole lines, or of the last line of the text.
    Lines(usize),
    // Nothing, and the text has ended.
    Nothing,
    // A line with which the text has more bytes than a source may have.
    TooLong,
}

/// What `bytes` allow, of which the first `seen` have no LF, where `bytes_left` more may be accepted;
/// `ended` says that the text ends after them.
pub(crate) fn look_ahead(bytes: &[u8], seen: usize, bytes_left: usize, ended: bool) -> Ahead
    requires inside { seen ≤ length bytes.now }
    requires none { whole_lines_len (take seen bytes.now) ≡ 0 }
    ensures { Allows result bytes.now bytes_left ended }
{
    if last_line_end(&bytes[seen..]) > 0 {
        let len = last_line_end(&bytes[..bytes_left.min(bytes.len())]);
        return if len == 0 {
            Ahead::TooLong
        } else {
            Ahead::Lines(len)
        };
    }
    if !ended {
        Ahead::Unended
    } else if bytes.is_empty() {
        Ahead::Nothing
    } else if bytes.len() > bytes_left {
        Ahead::TooLong
    } else {
        Ahead::Lines(bytes.len())
    }
}
