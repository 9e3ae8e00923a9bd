// The limits of a run: their standard values, their ranges and their names.
ghost use Rattle.std.specs.Prelude.{◌≡◌, IsOk, OnOk, MatchResult, Some, None};
ghost use Rattle.rdlpp_define.specs.Limits.{is_within, limit_fault, limit_name, AreInRange};

/// How much of each thing a run may use (this project's profile).
#[derive(Clone, Copy, Debug, PartialEq, Eq)]
pub struct Limits {
    /// The most macro bodies, actuals and default texts that are open at once: 1 to 1,024.
    pub depth: usize,
    /// The most included sources that are open at once: 0 to 64.
    pub includes: usize,
    /// The most bytes of a line or a logical line, with its LF: 256 to 1,048,576.
    pub line_bytes: usize,
    /// The most bytes of one source: 1 to 1,073,741,824.
    pub source_bytes: usize,
    /// The most bytes of the kept text of one call: 16 to 1,048,576.
    pub argument_bytes: usize,
    /// The most bytes of all live definitions together: 1,024 to 16,777,216.
    pub definition_bytes: usize,
    /// The most live definitions: 1 to 65,536.
    pub definitions: usize,
    /// The most conditionals that are open at once, over all sources: 1 to 4,096.
    pub conditions: usize,
    /// The most bytes of the output: any number.
    pub output_bytes: u64,
}

/// The limit that is out of its range.
#[derive(Clone, Copy, Debug, PartialEq, Eq)]
pub enum LimitFault {
    /// `depth`.
    Depth,
    /// `includes`.
    Includes,
    /// `line_bytes`.
    LineBytes,
    /// `source_bytes`.
    SourceBytes,
    /// `argument_bytes`.
    ArgumentBytes,
    /// `definition_bytes`.
    DefinitionBytes,
    /// `definitions`.
    Definitions,
    /// `conditions`.
    Conditions,
    /// `output_bytes`, which no number puts out of its range.
    OutputBytes,
}

impl Limits {
    /// The standard limits (this project's profile).
    pub fn standard() -> Limits
        ensures value { result ≡ record { depth = 256; includes = 16; line_bytes = 65536; source_bytes = 1073741824; argument_bytes = 65536; definition_bytes = 1048576; definitions = 4096; conditions = 256; output_bytes = 18446744073709551615 } }
        ensures in_range { AreInRange result }
    {
        Limits {
            depth: 256,
            includes: 16,
            line_bytes: 65_536,
            source_bytes: 1_073_741_824,
            argument_bytes: 65_536,
            definition_bytes: 1_048_576,
            definitions: 4_096,
            conditions: 256,
            output_bytes: u64::MAX,
        }
    }

    /// Whether each limit is in its range.
    ///
    /// # Errors
    /// The first limit, in the order of the fields, that is out of its range.
    pub fn check(&self) -> Result<(), LimitFault>
        ensures value { MatchResult result (λ _. limit_fault self.now ≡ None) (λ fault. limit_fault self.now ≡ Some fault) }
        ensures in_range { OnOk result (AreInRange self.now) }
        ensures refused { AreInRange self.now → IsOk result }
    {
        match self.fault() {
            Some(fault) => Err(fault),
            None => Ok(()),
        }
    }

    // The first limit, in the order of the fields, that is out of its range.
    #[tactic(auto, unfolding(crate::specs::Limits::limit_fault, crate::specs::Limits::is_within))]
    fn fault(&self) -> Option<LimitFault>
        ensures { result ≡ limit_fault self.now }
    {
        if !is_within(1, 1_024, self.depth) {
            return Some(LimitFault::Depth);
        }
        if !is_within(0, 64, self.includes) {
            return Some(LimitFault::Includes);
        }
        if !is_within(256, 1_048_576, self.line_bytes) {
            return Some(LimitFault::LineBytes);
        }
        if !is_within(1, 1_073_741_824, self.source_bytes) {
            return Some(LimitFault::SourceBytes);
        }
        if !is_within(16, 1_048_576, self.argument_bytes) {
            return Some(LimitFault::ArgumentBytes);
        }
        if !is_within(1_024, 16_777_216, self.definition_bytes) {
            return Some(LimitFault::DefinitionBytes);
        }
        if !is_within(1, 65_536, self.definitions) {
            return Some(LimitFault::Definitions);
        }
        if !is_within(1, 4_096, self.conditions) {
            return Some(LimitFault::Conditions);
        }
        // No number is out of this range, which stands here as the others do.
        if self.output_bytes > u64::MAX {
            return Some(LimitFault::OutputBytes);
        }
        None
    }
}

/// The name of the field of `Limits` that is out of its range, as the line of a fault has it (this project's profile).
pub fn limit_name(limit: LimitFault) -> &'static str
    ensures { result.now ≡ limit_name limit }
{
    match limit {
        LimitFault::Depth => "depth",
        LimitFault::Includes => "includes",
        LimitFault::LineBytes => "line_bytes",
        LimitFault::SourceBytes => "source_bytes",
        LimitFault::ArgumentBytes => "argument_bytes",
        LimitFault::DefinitionBytes => "definition_bytes",
        LimitFault::Definitions => "definitions",
        LimitFault::Conditions => "conditions",
        LimitFault::OutputBytes => "output_bytes",
    }
}

#[tactic(auto, unfolding(crate::specs::Limits::is_within))]
fn is_within(least: usize, greatest: usize, n: usize) -> bool
    ensures { result ≡ is_within least greatest n }
{
    least <= n && n <= greatest
}
