// Why there is no engine.

use rdlpp_define::LimitFault;

/// Why an engine can't be made. The sources are dropped.
#[derive(Clone, Copy, Debug, PartialEq, Eq)]
pub enum NewFault {
    /// A limit is out of its range.
    BadLimits(LimitFault),
    /// There was no memory.
    NoMemory,
}
