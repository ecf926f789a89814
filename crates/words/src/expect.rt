// Taking the token that is due, and refusing any other.
ghost use Rattle.std.specs.Prelude.{◌≡◌, true, Ok, Err, MatchResult};
ghost use Rattle.refusals.specs.declared.layers.FormRefusal.TheVariants.{UnknownWord};
ghost use Rattle.words.specs.Expected.{unexpected, Unmet, is_name_word, is_mark, mark_at, LineEnded};
ghost use Rattle.words.specs.Lexemes.{Word, lexeme};
ghost use Rattle.words.specs.Spelling.{name_shape};
ghost use Rattle.words.specs.declared.no_such_name.NoSuchName.{NoSuchName as NoSuchNameModel};

use crate::lexer::Lexer;
use crate::no_such_name::NoSuchName;
use crate::spelling::is_name;
use crate::token::Token;
use refusals::{FormRefusal, Refusal, TextRefusal};

// A token of one byte with a meaning of its own.
#[derive(Clone, Copy, Debug, PartialEq, Eq)]
pub enum Mark {
    Opening,
    Closing,
    LineEnd,
}

// A word of the shape of a name, and its place.
#[derive(Clone, Copy, Debug, PartialEq, Eq)]
pub struct PlacedWord<'a> {
    pub bytes: &'a [u8],
    pub place: usize,
    ghost shaped: { name_shape bytes.now ≡ true },
}

// Why a token cannot stand where something else is due.
pub fn unexpected(token: Token<'_>) -> Refusal
    ensures { result ≡ unexpected (lexeme token.entry) }
{
    match token {
        Token::Forbidden { place } => TextRefusal::ForbiddenByte { place }.into(),
        Token::Word { bytes, place } if !is_name(bytes) => {
            TextRefusal::MalformedWord { place }.into()
        }
        Token::Word { place, .. }
        | Token::LineEnd { place }
        | Token::TextEnd { place }
        | Token::Opening { place }
        | Token::Closing { place } => FormRefusal::Misplaced { place }.into(),
    }
}

// The word that is due; any other token, and a word that is no name, is refused.
pub fn expect_word<'a>(token: Token<'a>) -> Result<PlacedWord<'a>, Refusal>
    ensures { MatchResult result (λ w. (lexeme token.entry ≡ Word w.bytes.now w.place) × (name_shape w.bytes.now ≡ true)) (Unmet is_name_word (lexeme token.entry)) }
{
    match token {
        Token::Word { bytes, place } if is_name(bytes) => Ok(PlacedWord { bytes, place }),
        other => Err(unexpected(other)),
    }
}

// The place of the bracket or line end that is due.
pub fn expect_mark(token: Token<'_>, due: Mark) -> Result<usize, Refusal>
    ensures { MatchResult result (λ n. lexeme token.entry ≡ mark_at due n) (Unmet (is_mark due) (lexeme token.entry)) }
{
    match (due, token) {
        (Mark::Opening, Token::Opening { place })
        | (Mark::Closing, Token::Closing { place })
        | (Mark::LineEnd, Token::LineEnd { place }) => Ok(place),
        (_, other) => Err(unexpected(other)),
    }
}

impl<'a> PlacedWord<'a> {
    // What the word is the name of.
    pub fn named<T: TryFrom<&'a [u8], Error = NoSuchName>>(self) -> Result<T, FormRefusal>
        ensures { MatchResult result (λ x. T.try_from_gives self.entry.bytes (Ok x)) (λ e. (e ≡ UnknownWord self.entry.place) × ((why : NoSuchNameModel) × T.try_from_gives self.entry.bytes (Err why))) }
    {
        let place = self.place;
        T::try_from(self.bytes).map_err(|_| FormRefusal::UnknownWord { place })
    }
}

impl Lexer<'_> {
    // The end of a line, which may be the text's end: the place after it.
    pub fn line_end(&mut self) -> Result<usize, Refusal>
        ensures { LineEnded self.old result self.new }
    {
        match self.next_token() {
            Token::TextEnd { place } => Ok(place),
            token => Ok(expect_mark(token, Mark::LineEnd)? + 1),
        }
    }
}
