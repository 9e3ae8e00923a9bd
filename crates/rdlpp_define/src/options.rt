// What is asked of a run.
use crate::Limits;

/// What is asked of a run (this project's profile).
#[derive(Drop)]
pub struct Options {
    /// Macros without a formal list, each a name and a body, defined in order before the main text
    /// is opened.
    pub defines: Vec<(String, String)>,
    /// How much of each thing the run may use.
    pub limits: Limits,
    /// Whether origin comments are written.
    pub origins: bool,
}
