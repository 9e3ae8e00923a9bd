//! Tokens, lines and logical lines of a text, and what is kept of the text of a logical line, in which each continuation is read
//! as its LF: the scanner under the preprocessor.
#![tactic(auto)]

mod bytes;
mod continuations;
mod faults;
mod kept_text;
mod line_tokens;
mod lines;
mod names;
mod one_piece;
mod plain;
mod scan;
mod token;

pub use bytes::{blanks, byte_at, inert_bytes, is_blank, is_digit, is_letter, word_bytes};
pub use continuations::split_first;
pub use faults::{is_perl, lex_fault, open_fault, plain_argument_bytes};
pub use kept_text::{Measured, after_default, append_trimmed, is_space, trimmed_len};
pub use line_tokens::line_token;
pub use lines::{last_line_end, line_ends_in, line_len, logical_line, rest_of_line};
pub use names::{is_name, reserved};
pub use one_piece::append_part;
pub use plain::{PlainText, plain_text, plain_text_len, stops_plain_text};
pub use scan::first_token;
pub use token::{Directive, Kind, LexFault, Mode, Token};
