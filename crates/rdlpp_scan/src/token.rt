// What the scanner tells of a text: tokens, and the names that directives have.

/// The kind of a token, by the row of the token table that gives it (this project's profile).
#[derive(Clone, Copy, PartialEq, Eq)]
pub enum Kind {
    /// `[A-Za-z_][A-Za-z0-9_]*`.
    Name,
    /// A run of word bytes that begins with a digit, or `'` or `\` with the run after it.
    Word,
    /// A backquote and the name after it.
    Back,
    /// A run of spaces, tabs, CR, VT and FF.
    Blank,
    /// LF.
    LineEnd,
    /// A string, or the part of one.
    Str,
    /// `//` up to the end of its line.
    LineComment,
    /// `/*` up to and with `*/`, or the part of one.
    BlockComment,
    /// `(`, `[` or `{`.
    Opener,
    /// `)`, `]` or `}`.
    Closer,
    /// `,`.
    Comma,
    /// Any other byte.
    Other,
    /// `<%`, which begins an embedded Perl segment.
    Perl,
    /// A backquote with no name after it.
    BareBackquote,
}

/// Where a text stands before a token: in plain text, in a string or in a block comment.
#[derive(Clone, Copy, PartialEq, Eq)]
pub enum Mode {
    /// Neither in a string nor in a block comment.
    Plain,
    /// In a string that opened before.
    InStr,
    /// In a block comment that opened before.
    InBlock,
}

/// One token, or the part of it that a cut text has.
#[derive(Clone, Copy)]
pub struct Token {
    /// What it is.
    pub kind: Kind,
    /// Where the text stands after it.
    pub next_mode: Mode,
    /// How many bytes it has; at least one.
    pub len: usize,
}

/// The nine directives, whose names are reserved (IEEE 1364-2001, clause on compiler directives).
#[derive(Clone, Copy)]
pub enum Directive {
    /// `define`.
    Define,
    /// `undef`.
    Undef,
    /// `ifdef`.
    Ifdef,
    /// `ifndef`.
    Ifndef,
    /// `elsif`.
    Elsif,
    /// `else`.
    Else,
    /// `endif`.
    Endif,
    /// `include`.
    Include,
    /// `line`.
    Line,
}

/// What is wrong with a whole text, as tokens.
#[derive(Clone, Copy)]
pub enum LexFault {
    /// `<%` outside comments.
    Perl,
    /// A string that isn't closed.
    OpenString,
    /// A block comment that isn't closed.
    OpenComment,
}
