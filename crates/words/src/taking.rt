// Takes the words of a text from the left.
ghost use Rattle.std.specs.Prelude.{◌≡◌, ℕ, ◌+◌, ◌^◌, ◌<◌, ◌≤◌, min, true, false, [], ◌∷◌, length, drop, ◌≢◌, slice_index};
ghost use Rattle.std.specs.List.{prefix_len};
ghost use Rattle.words.specs.Bytes.{class, is_of};
ghost use Rattle.words.specs.Left.{left, onward};
ghost use Rattle.words.specs.Lexemes.{lexeme, lexemes_from, following, end_of, is_end};
ghost use Rattle.words.specs.declared.bytes.ByteClass.TheVariants.{Space};

use crate::bytes::{ByteClass, class_of, is_of};
use crate::lexer::Lexer;
use crate::token::Token;

impl<'a> Lexer<'a> {
    // Reads from `place` on, or from the end of a text that is shorter.
    pub fn new(text: &'a [u8], place: usize) -> Lexer<'a>
        ensures text { result.text.now ≡ text.now }
        ensures place { result.place ≡ min place (length text.now) }
    {
        Lexer {
            text,
            place: place.min(text.len()),
        }
    }

    // The text from here on.
    fn rest(&self) -> &'a [u8]
        ensures { result.now ≡ drop self.now.place self.now.text.now }
    {
        &self.text[self.place..]
    }

    // How many bytes of that class stand in a row from here on.
    fn run_length(&self, class: ByteClass) -> usize
        ensures within { self.now.place + result ≤ length self.now.text.now }
        ensures value { result ≡ prefix_len (is_of class) (drop self.now.place self.now.text.now) }
    {
        self.rest()
            .iter()
            .take_while(|byte| is_of(**byte, class))
            .count()
    }

    // The token that begins right here, and the place after it.
    #[tactic(auto, using(crate::proofs::Runs::byte_step, crate::proofs::Runs::word_at))]
    fn token_here(&self) -> (Token<'a>, usize)
        requires { self.now.place < length self.now.text.now → class (slice_index self.now.text.now self.now.place) ≢ Space }
        ensures taken { left self.now ≡ lexeme result.0 ∷ following self.now.text.now (lexeme result.0) }
        ensures after { result.1 ≡ end_of (lexeme result.0) }
        ensures inside { result.1 ≤ length self.now.text.now }
        ensures forward { is_end (lexeme result.0) ≡ false → self.now.place < result.1 }
        ensures again { is_end (lexeme result.0) ≡ true → lexemes_from self.now.text.now result.1 ≡ lexeme result.0 ∷ [] }
    {
        let place = self.place;
        let Some(byte) = self.text.get(place) else {
            return (Token::TextEnd { place }, place);
        };
        match class_of(*byte) {
            ByteClass::InWord => {
                let end = place + self.run_length(ByteClass::InWord);
                let bytes = &self.text[place..end];
                (Token::Word { bytes, place }, end)
            }
            ByteClass::Opening => (Token::Opening { place }, place + 1),
            ByteClass::Closing => (Token::Closing { place }, place + 1),
            ByteClass::LineFeed => (Token::LineEnd { place }, place + 1),
            ByteClass::Forbidden => (Token::Forbidden { place }, place + 1),
            ByteClass::Space => unreachable!(),
        }
    }

    // The next word, bracket or line end; at the text's end that end, again and again.
    #[tactic(auto, using(crate::proofs::Runs::spaces_skipped, crate::proofs::Runs::no_space))]
    pub fn next_token(&mut self) -> Token<'a>
        ensures taken { left self.old ≡ lexeme result ∷ onward (lexeme result) (left self.new) }
        ensures fewer { length (left self.new) ≤ length (left self.old) }
        ensures after { self.new.place ≡ end_of (lexeme result) }
        ensures same { self.new.text ≡ self.old.text }
        ensures fits { end_of (lexeme result) < 2 ^ 64 }
    {
        self.place += self.run_length(ByteClass::Space);
        let (token, end) = self.token_here();
        self.place = end;
        token
    }
}
