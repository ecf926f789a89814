// Numbers in job lines: 1 to 7 digits, with no needless zero in front.
ghost use Rattle.std.specs.Prelude.{◌≡◌, true, false, MatchOption, MatchResult};
ghost use Rattle.words.specs.Bytes.{digit};
ghost use Rattle.words.specs.Lexemes.{lexeme};
ghost use Rattle.std.specs.List.{list_all};
ghost use Rattle.jobs.specs.Numbers.{number_shape, number_value, is_number, not_number, NumberWord};

use refusals::{Refusal, TextRefusal};
use std::str;
use words::{Token, unexpected};

// The most digits of a number.
const MOST_DIGITS: usize = 7;

// Whether each byte is a digit.
fn all_digits(word: &[u8]) -> bool
    ensures { result ≡ list_all digit word.now }
{
    word.iter().all(u8::is_ascii_digit)
}

// Whether a word is a number as it must be written.
fn is_number(word: &[u8]) -> bool
    ensures { result ≡ number_shape word.now }
{
    match word {
        [] | [b'0', _, ..] => false,
        _ => word.len() <= MOST_DIGITS && all_digits(word),
    }
}

// The number that a word is, if it is written as it must be.
#[tactic(auto, using(crate::proofs::Digits::number_is_text, crate::proofs::Digits::number_parsed))]
fn number_of(word: &[u8]) -> Option<usize>
    ensures { MatchOption result (number_shape word.now ≡ false) (λ v. (number_shape word.now ≡ true) × (v ≡ number_value word.now)) }
{
    if !is_number(word) {
        return None;
    }
    str::from_utf8(word).ok()?.parse().ok()
}

// The number that is due, by its value.
pub fn expect_number(token: Token<'_>) -> Result<usize, Refusal>
    ensures { MatchResult result (λ v. NumberWord (lexeme token.entry) v) (λ e. (is_number (lexeme token.entry) ≡ false) × (e ≡ not_number (lexeme token.entry))) }
{
    match token {
        Token::Word { bytes, place } => {
            Ok(number_of(bytes).ok_or(TextRefusal::MalformedWord { place })?)
        }
        other => Err(unexpected(other)),
    }
}
