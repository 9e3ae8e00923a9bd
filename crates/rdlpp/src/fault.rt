// Why a text wasn't preprocessed to its end.
use rdlpp_define::LimitFault;
use rdlpp_expand::{NewFault, RunFault};

/// Why a text wasn't preprocessed to its end (this project's profile).
#[derive(Debug, Drop)]
pub enum PrepFault {
    /// The first of the limits that is out of its range. Nothing was opened or written.
    BadLimits(LimitFault),
    /// There was no memory for the engine. Nothing was opened or written.
    NoMemory,
    /// The fault that ended the run or refused a definition, and how many bytes were written before it.
    Run(RunFault),
}
