//! The tokens of a source text: lexical elements and directives of C99, narrower.
#![tactic(auto)]

mod bytes;
mod front;
mod lexer;
mod lines;
mod macros;
mod number;
mod numbers;
mod stop;
mod token;

pub use bytes::is_blank;
pub use lexer::{LexFault, Tokens, lex};
pub use number::{Number, read_number};
pub use token::{Token, TokenKind};
