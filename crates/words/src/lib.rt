// The words of a text: brackets and runs of letters and digits, each with its place.
#![tactic(auto)]

mod bytes;
pub mod expect;
pub mod lexer;
pub mod no_such_name;
pub mod spelling;
mod taking;
pub mod token;

pub use expect::{Mark, PlacedWord, expect_mark, expect_word, unexpected};
pub use lexer::Lexer;
pub use no_such_name::NoSuchName;
pub use spelling::is_name;
pub use token::Token;
