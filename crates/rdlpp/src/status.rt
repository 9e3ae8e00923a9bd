// Exit statuses.
ghost use Rattle.std.specs.Prelude.{◌≡◌};
ghost use Rattle.rdlpp.specs.Status.{status_of};

use crate::PrepFault;

/// The exit status that tells how a run ended (this project's profile).
///
/// 0 where it went to the end; 1 where the text has a fault, F1 to F31 or F35; 2 where a limit is out of its
/// range; 3 where a device failed or memory was refused, F32 to F34 or want of memory.
pub fn exit_status(outcome: &Result<u64, PrepFault>) -> u8
    ensures { result ≡ status_of outcome.now }
{
    match outcome {
        Ok(_) => 0,
        Err(PrepFault::BadLimits(_)) => 2,
        Err(PrepFault::NoMemory) => 3,
        Err(PrepFault::Run(run)) => match run.fault.kind.number() {
            32..=34 => 3,
            _ => 1,
        },
    }
}
