//! The words of the command line.
use rdlpp_words::{Invocation, UsageFault, parse_words};
use std::env;
use std::io::ErrorKind;
use std::rt::Env;

// What is told of a word that isn't text.
const NOT_TEXT: &str = "error: a word of the command line isn't UTF-8\n";

/// Reads what the words of the command line ask for.
///
/// # Errors
/// As `parse_words`; and `Bad` where a word isn't UTF-8.
pub fn read_invocation(rt: &(impl Env + AllocGlobal)) -> Result<Invocation, UsageFault> {
    let words = match env::args(rt) {
        Ok(words) => words,
        Err(error) if error.kind() == ErrorKind::OutOfMemory => return Err(UsageFault::NoMemory),
        Err(_) => return Err(UsageFault::Bad(String::from_str(rt.alloc(), NOT_TEXT)?)),
    };
    let words = words.collect::<Vec<String>>(rt.alloc())?;
    let mut texts = Vec::new(rt.alloc());
    for word in &words {
        if texts.push(word.as_str()).is_err() {
            return Err(UsageFault::NoMemory);
        }
    }
    parse_words(rt.alloc(), texts.as_slice())
}
