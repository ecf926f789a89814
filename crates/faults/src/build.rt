// How cubes come to be, and what a caller can ask of one.
ghost use Rattle.std.specs.Prelude.{◌≡◌, ◌/◌, ◌%◌, ◌^◌, MatchResult, ◌==◌, bit_and};
ghost use Rattle.faults.specs.Cubes.{Within, cube_made, nothing_driven, level_at, leaves_open, driving};

use crate::cube::Cube;
use refusals::FolderRefusal;

// Whether every 1 of a word stands where the other has a 1 too.
fn lies_within(word: u64, other: u64) -> bool
    ensures { result ≡ (bit_and word other == word) }
{
    word & other == word
}

// Bit `index` of a word, and 0 past its 64 bits.
fn bit(word: u64, index: usize) -> bool
    ensures { result ≡ (word / 2 ^ index % 2 == 1) }
{
    index < 64 && (word >> index) % 2 == 1
}

impl Cube {
    // The cube that drives these inputs to these levels; a level on an input that is open is refused.
    pub fn new(driven: u64, level: u64) -> Result<Cube, FolderRefusal>
        ensures value { result ≡ cube_made driven level }
        ensures rule { MatchResult result (λ _. Within driven level) (λ _. Within driven level → ⊥) }
    {
        if !lies_within(level, driven) {
            return Err(FolderRefusal::LevelNotDriven);
        }
        Ok(Cube { driven, level })
    }

    // The cube that leaves every input open.
    pub fn nothing() -> Cube
        ensures { result ≡ nothing_driven }
    {
        Cube {
            driven: 0,
            level: 0,
        }
    }

    // The level that the input is driven to; nothing where it is open.
    pub fn level_at(self, input: usize) -> Option<bool>
        ensures { result ≡ level_at self input }
    {
        bit(self.driven, input).then(|| bit(self.level, input))
    }

    // Whether the cube has a place for the input, and leaves it open.
    fn leaves_open(self, input: usize) -> bool
        ensures { result ≡ leaves_open self input }
    {
        input < 64 && self.level_at(input).is_none()
    }

    // The cube that drives one more input to a level. An input that is driven already keeps its level, and one past the
    // 64th is never driven.
    pub fn driving(self, input: usize, level: bool) -> Cube
        ensures { result ≡ driving self input level }
    {
        if !self.leaves_open(input) {
            return self;
        }
        let place = 1 << input;
        let raised = if level { place } else { 0 };
        Cube {
            driven: self.driven | place,
            level: self.level | raised,
        }
    }

    // Bit i says whether input i is driven.
    pub fn driven(self) -> u64
        ensures { result ≡ self.driven }
    {
        self.driven
    }

    // Bit i is the level that input i is driven to, and 0 where it is open.
    pub fn level(self) -> u64
        ensures value { result ≡ self.level }
        ensures rule { Within self.driven result }
    {
        self.level
    }
}
