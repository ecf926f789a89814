// A set of lines of a circuit.
ghost use Rattle.std.specs.Prelude.{◌≡◌, ◌<◌, true};
ghost use Rattle.simulator.specs.LineSets.{has, IsEmpty, LowestFrom, Includes, OnlyMore, Joined};

// A bit for each line. (Words and no list of numbers: a set is joined to another at each line that changes.)
#[derive(Clone, Copy)]
pub struct LineSet {
    pub(crate) words: [u64; 8],
}

// The place of the lowest 1 of a word, from that place on.
#[inline(always)]
pub(crate) fn lowest_from(word: u64, from: usize) -> Option<usize>
    requires { from < 64 }
    ensures { LowestFrom word from result }
{
    let rest = word >> from;
    if rest == 0 {
        return None;
    }
    Some(from + rest.trailing_zeros() as usize)
}

impl LineSet {
    // No line.
    pub fn empty() -> LineSet
        ensures { IsEmpty result }
    {
        LineSet { words: [0; 8] }
    }

    // Whether the line is in the set.
    pub fn has(&self, line: usize) -> bool
        requires { line < 512 }
        ensures { result ≡ has self.now line }
    {
        (self.words[line / 64] >> (line % 64)) % 2 == 1
    }

    // These and the line.
    pub fn with(self, line: usize) -> LineSet
        requires { line < 512 }
        ensures more { Includes result self }
        ensures line { has result line ≡ true }
        ensures only { OnlyMore self line result }
    {
        let mut set = self;
        set.add(line);
        set
    }

    // Adds the line.
    #[inline(always)]
    pub fn add(&mut self, line: usize)
        requires { line < 512 }
        ensures more { Includes self.new self.old }
        ensures line { has self.new line ≡ true }
        ensures only { OnlyMore self.old line self.new }
    {
        self.words[line / 64] |= 1 << (line % 64);
    }

    // Adds those of another set.
    #[inline(always)]
    pub fn add_all(&mut self, other: &LineSet)
        ensures these { Includes self.new self.old }
        ensures those { Includes self.new other.now }
        ensures words { Joined self.old other.now self.new }
    {
        for index in 0..8 {
            self.words[index] |= other.words[index];
        }
    }
}
