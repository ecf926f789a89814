// Which line a word of the text names.
ghost use Rattle.std.specs.Prelude.{◌≡◌, true, false, Some, None, MatchResult};
ghost use Rattle.refusals.specs.declared.layers.CircuitRefusal.TheVariants.{NameTaken, UnknownName};
ghost use Rattle.circuit.specs.Model.{names, line_named};
ghost use Rattle.reader.specs.Reading.{taken};
ghost use Rattle.reader.specs.Parsing.{so_far};

use crate::parser::Parser;
use refusals::CircuitRefusal;
use words::PlacedWord;

impl Parser<'_> {
    // The line of that name.
    pub fn line_of(&self, word: PlacedWord<'_>) -> Result<usize, CircuitRefusal>
        ensures { MatchResult result (λ line. line_named (names (so_far self.now)) word.entry.bytes.now ≡ Some line) (λ e. (line_named (names (so_far self.now)) word.entry.bytes.now ≡ None) × (e ≡ UnknownName word.entry.place)) }
    {
        let place = word.place;
        self.tables
            .line_named(word.bytes)
            .ok_or(CircuitRefusal::UnknownName { place })
    }

    // The word, where no line has that name yet.
    pub fn new_name<'a>(&self, word: PlacedWord<'a>) -> Result<PlacedWord<'a>, CircuitRefusal>
        ensures { MatchResult result (λ w. (w ≡ word.entry) × (taken (so_far self.now) w.bytes.now ≡ false)) (λ e. (taken (so_far self.now) word.entry.bytes.now ≡ true) × (e ≡ NameTaken word.entry.place)) }
    {
        match self.tables.line_named(word.bytes) {
            None => Ok(word),
            Some(_) => Err(CircuitRefusal::NameTaken { place: word.place }),
        }
    }
}
