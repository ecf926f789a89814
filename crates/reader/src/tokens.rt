// Starting to read a text, and taking one token of it.
ghost use Rattle.std.specs.Prelude.{◌≡◌, ◌≤◌, ◌∷◌, length};
ghost use Rattle.words.specs.Left.{onward};
ghost use Rattle.words.specs.Lexemes.{lexeme, lexemes};
ghost use Rattle.reader.specs.Reading.{empty};
ghost use Rattle.reader.specs.Parsing.{ahead, so_far};

use crate::parser::Parser;
use circuit::Tables;
use std::alloc::Global;
use words::{Lexer, Token};

impl<'a> Parser<'a> {
    // Begins to read a text, with nothing in the tables.
    pub fn new(heap: Global, text: &'a [u8]) -> Parser<'a>
        ensures ahead { ahead result ≡ lexemes 0 text.now }
        ensures nothing { so_far result ≡ empty }
    {
        let tables = Tables {
            inputs: Vec::new(heap),
            gates: Vec::new(heap),
            outputs: Vec::new(heap),
        };
        Parser {
            lexer: Lexer::new(text, 0),
            tables,
            heap,
        }
    }

    // Takes the next token.
    pub fn next(&mut self) -> Token<'a>
        ensures taken { ahead self.old ≡ lexeme result ∷ onward (lexeme result) (ahead self.new) }
        ensures same { self.new.tables ≡ self.old.tables }
        ensures fewer { length (ahead self.new) ≤ length (ahead self.old) }
    {
        self.lexer.next_token()
    }
}
