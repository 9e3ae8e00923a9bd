//! What preprocessing means: the definitions from the tokens of a source to the output, with their laws, which are public lemmas
//! in files under `proofs/` that are named for their subject, and the faults that the output can end in.
#![tactic(auto)]

mod fault;

pub use fault::{Fault, FaultKind};
