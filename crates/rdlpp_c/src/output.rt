// Outputs that are read to their end: the front into a buffer of a caller's, and the length of all.
ghost use Rattle.std.specs.Prelude.{◌≡◌, ◌<◌, ◌^◌, Some};
ghost use Rattle.rdlpp_expand.specs.Reading.{ended_with, reading_left};
ghost use Rattle.rdlpp_expand.specs.Run.{count_of, fault_of};
ghost use Rattle.rdlpp_c.specs.Answer.{text_sources};
ghost use Rattle.rdlpp_c.specs.Output.{Counted, IsRead};

use crate::stream::ended_fault;
use rdlpp::{ReadEnd, Reading, RunFault, Texts};

// How many bytes are read at a time where only their count is asked for.
const COUNTED_BYTES: usize = 4_096;

// How an output ended, and the count of its bytes, up to `u64::MAX`.
#[derive(Clone, Copy)]
struct End {
    count: u64,
    ending: ReadEnd,
}

// Reads an output to its end, and writes its front to a buffer, as much as there is room for.
pub(crate) fn read_output(reading: &mut Reading<Texts<'_>>, out: &mut [u8]) -> Result<u64, RunFault>
    ensures { IsRead (reading_left text_sources reading.old) out.old out.new (count_of result) (fault_of result) }
{
    let part = reading.fill(out);
    let count = part.len as u64;
    match part.ending {
        Some(ending) => told_end(reading, End { count, ending }),
        None => {
            let end = count_rest(reading, count);
            told_end(reading, end)
        }
    }
}

// Reads an output to its end, and counts its bytes after so many.
fn count_rest(reading: &mut Reading<Texts<'_>>, before: u64) -> End
    ensures { Counted text_sources reading.old reading.new before result.count result.ending }
{
    let mut counted = [0; COUNTED_BYTES];
    let mut count = before;
    loop {
        let part = reading.fill(&mut counted);
        count = count.saturating_add(part.len as u64);
        if let Some(ending) = part.ending {
            return End { count, ending };
        }
    }
}

// What an output comes to that was read to its end: the count of its bytes, or the fault that ended it.
fn told_end(reading: &Reading<Texts<'_>>, end: End) -> Result<u64, RunFault>
    ensures count { count_of result ≡ end.count }
    ensures fits { end.count < 2 ^ 64 }
    ensures fault { fault_of result ≡ ended_with (Some end.ending) reading.now.engine.kept }
{
    match ended_fault(reading, Some(end.ending)) {
        Some(fault) => Err(RunFault {
            fault,
            written: end.count,
        }),
        None => Ok(end.count),
    }
}
