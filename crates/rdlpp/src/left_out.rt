// Directives of others, by their names.
ghost use Rattle.std.specs.Prelude.{◌≡◌};
ghost use Rattle.rdlpp.specs.LeftOut.{is_left_out};

// Whether a name is that of a directive which is none here (IEEE 1364-2001, compiler directives; this project's
// profile for `if`).
pub(crate) fn is_left_out(name: &[u8]) -> bool
    ensures { result ≡ is_left_out name.now }
{
    name == b"if".as_slice()
        || name == b"timescale".as_slice()
        || name == b"resetall".as_slice()
        || name == b"default_nettype".as_slice()
        || name == b"celldefine".as_slice()
        || name == b"endcelldefine".as_slice()
        || name == b"unconnected_drive".as_slice()
        || name == b"nounconnected_drive".as_slice()
}
