// The words that lines begin with.
ghost use Rattle.std.specs.Prelude.{◌≡◌};
ghost use Rattle.reader.specs.Heads.{HeadOf, wrong_head};

use refusals::FormRefusal;
use words::PlacedWord;

// The words. They are compared by `==`: a `match` on literals as long as these leaves open the arm of any other word, which has
// a case for each byte.
pub const INPUTS: &[u8] = b"inputs";

const GATE: &[u8] = b"gate";

const OUTPUTS: &[u8] = b"outputs";

// How a line after the inputs line may begin.
#[derive(Clone, Copy, Debug, PartialEq, Eq)]
pub enum Head {
    Gate,
    Outputs,
}

// The head that is due after the inputs line, or why the word is none.
impl TryFrom<PlacedWord<'_>> for Head {
    type Error = FormRefusal;

    ghost try_from_gives = { λ word r. HeadOf word.bytes.now word.place r };

    fn try_from(word: PlacedWord<'_>) -> Result<Head, FormRefusal> {
        if word.bytes == GATE {
            Ok(Head::Gate)
        } else if word.bytes == OUTPUTS {
            Ok(Head::Outputs)
        } else {
            Err(wrong_head(word))
        }
    }
}

// The refusal of a word where another head is due.
pub fn wrong_head(word: PlacedWord<'_>) -> FormRefusal
    ensures { result ≡ wrong_head word.entry.bytes.now word.entry.place }
{
    let PlacedWord { bytes, place } = word;
    if bytes == INPUTS || bytes == GATE || bytes == OUTPUTS {
        FormRefusal::Misplaced { place }
    } else {
        FormRefusal::UnknownWord { place }
    }
}
