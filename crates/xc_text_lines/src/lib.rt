//! Texts of lines: read line by line, with the first bad line named, and printed.
//!
//! A format is an automaton over lines whose state is the value that has been read so far
//! (`LineReader`). Lines end in a line feed and consist of words with single spaces between them.
#![tactic(auto)]

mod lines;
mod numbers;
mod word;

pub use lines::{LineReader, ReadFault, Refused, read_lines};
pub use numbers::{number, number_below, signed_number};
pub use word::{
    cut_word, end_line, hex_bytes, push_hex, push_number, push_signed, push_space, words,
};
