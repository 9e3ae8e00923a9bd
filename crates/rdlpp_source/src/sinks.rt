//! Sinks: what a text is written to.
ghost use Rattle.std.specs.Prelude.{◌≡◌, ℕ, true, List, Option, None, is_err};
ghost use Rattle.std.specs.Io.{WritesAtMost};
ghost use Rattle.std.specs.Io.KnownBytes.{Keeps, WriteAppends};
ghost use Rattle.rdlpp_source.specs.Counts.{Counts};
ghost use Rattle.rdlpp_source.specs.Sinks.{is_failed_write};

/// A write or a flush that failed, for whatever reason. The sink's count of it rose.
#[derive(Clone, Copy, Debug, PartialEq, Eq)]
pub struct SinkFault;

/// Takes the bytes of a text, in order.
///
/// A sink says in contracts which bytes it took, where it knows them, and counts the writes that
/// failed, the flushes that failed, and how often it was asked to flush, each up to `u64::MAX`,
/// where a count stays and is taken as risen. The rules are this project's.
pub trait Sink {
    // the bytes that were taken, where they are known
    ghost taken: { Self → Option (List ℕ) } = { λ _. None };

    // how often a write failed
    ghost failed_writes: { Self → ℕ };

    // how often a flush failed
    ghost failed_flushes: { Self → ℕ };

    // how often a flush was asked for
    ghost flushes: { Self → ℕ };

    /// Takes the first bytes of `part`, and answers how many: from 0 to the length of `part`.
    ///
    /// A refusal, and 0 for a `part` that isn't empty, are failures: the count of failed writes
    /// rises there and nowhere else, and the other counts stay. After a refusal no byte of `part`
    /// was taken.
    fn write(&mut self, part: &[u8]) -> Result<usize, SinkFault>
        ensures bound { WritesAtMost result part.now }
        ensures bytes { WriteAppends (taken self.old) (taken self.new) result part.now }
        ensures writes { Counts (is_failed_write result part.now) (failed_writes self.old) (failed_writes self.new) }
        ensures unflushed { (failed_flushes self.new ≡ failed_flushes self.old) × (flushes self.new ≡ flushes self.old) };

    /// Passes on what was taken and is still held back. The bytes taken stay as they are.
    ///
    /// Each call is counted as a flush that was asked for. A refusal is a failure: the count of
    /// failed flushes rises there and nowhere else.
    fn flush(&mut self) -> Result<(), SinkFault>
        ensures bytes { Keeps (taken self.old) (taken self.new) }
        ensures asked { Counts true (flushes self.old) (flushes self.new) }
        ensures failures { Counts (is_err result) (failed_flushes self.old) (failed_flushes self.new) }
        ensures writes { failed_writes self.new ≡ failed_writes self.old };
}
