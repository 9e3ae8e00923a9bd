// What a caller lends: limits, and arrays of bytes in pairs.
ghost use Rattle.std.specs.Prelude.{◌≡◌};
ghost use Rattle.rdlpp_c.specs.Request.{limits_of};

/// How much of each thing a call may use; `rdlpp::Limits` has the units and ranges.
#[repr(C)]
#[derive(Clone, Copy)]
pub struct Limits {
    /// The most macro bodies, actuals and default texts that are open at once.
    pub depth: usize,
    /// The most included sources that are open at once.
    pub includes: usize,
    /// The most bytes of a line or a logical line, with its LF.
    pub line_bytes: usize,
    /// The most bytes of one source.
    pub source_bytes: usize,
    /// The most bytes of the kept text of one call.
    pub argument_bytes: usize,
    /// The most bytes of all live definitions together.
    pub definition_bytes: usize,
    /// The most live definitions.
    pub definitions: usize,
    /// The most conditionals that are open at once, over all sources.
    pub conditions: usize,
    /// The most bytes of the output.
    pub output_bytes: u64,
}

/// A source in memory. It is lent for the call.
#[repr(C)]
#[derive(Clone, Copy)]
pub struct Text<'a> {
    /// The path under which it is found, in UTF-8.
    pub path: &'a [u8],
    /// Its bytes.
    pub text: &'a [u8],
}

/// An include folder. It is lent for the call.
#[repr(C)]
#[derive(Clone, Copy)]
pub struct Folder<'a> {
    /// Its path, in UTF-8.
    pub path: &'a [u8],
}

/// A macro without a formal list. It is lent for the call.
#[repr(C)]
#[derive(Clone, Copy)]
pub struct Definition<'a> {
    /// Its name, in UTF-8.
    pub name: &'a [u8],
    /// Its body, in UTF-8.
    pub text: &'a [u8],
}

/// What is asked for. It is lent for the call.
#[repr(C)]
#[derive(Clone, Copy)]
pub struct Request<'a> {
    /// The limits.
    pub limits: Limits,
    /// Whether lines `// origin: NAME:LINE` are written.
    pub origins: bool,
    /// Of a handle: whether a source that isn't among `texts` is asked for.
    pub asks: bool,
    /// Of a handle: whether each read ends at a piece's end, so that its place is told.
    pub pieces: bool,
    /// The sources in memory.
    pub texts: &'a [Text<'a>],
    /// The include folders, in the order of the search.
    pub folders: &'a [Folder<'a>],
    /// The macros that are defined first, in order.
    pub definitions: &'a [Definition<'a>],
    /// The path of the main text, in UTF-8.
    pub path: &'a [u8],
}

// The limits as the engine takes them.
pub(crate) fn limits_of(limits: &Limits) -> rdlpp::Limits
    ensures { result ≡ limits_of limits.now }
{
    rdlpp::Limits {
        depth: limits.depth,
        includes: limits.includes,
        line_bytes: limits.line_bytes,
        source_bytes: limits.source_bytes,
        argument_bytes: limits.argument_bytes,
        definition_bytes: limits.definition_bytes,
        definitions: limits.definitions,
        conditions: limits.conditions,
        output_bytes: limits.output_bytes,
    }
}
