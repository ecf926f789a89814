// A place in a set of lines that is gone through in rising order.
ghost use Rattle.std.specs.Prelude.{◌≡◌, ◌<◌, ◌≤◌};
ghost use Rattle.simulator.specs.LineSets.{NextFrom, Includes, Joined};
ghost use Rattle.simulator.specs.Cursors.{Copies, Follows, CopiesNext};

use crate::line_set::{LineSet, lowest_from};

// The word that is gone through, as it stands in the set. (A copy, since the next line is found in it while the set itself is
// still being written.)
#[derive(Clone, Copy)]
pub(crate) struct Cursor {
    word: u64,
}

impl Cursor {
    // The word of that line.
    #[inline(always)]
    pub(crate) fn at_line(lines: &LineSet, line: usize) -> Cursor
        requires { line < 512 }
        ensures { Copies result lines.now line }
    {
        Cursor {
            word: lines.words[line / 64],
        }
    }

    // The first line of the set from that one on, if there is one below the end. (One of the last word may lie beyond the end.)
    #[inline(always)]
    pub(crate) fn next_from(&mut self, lines: &LineSet, line: usize, end: usize) -> Option<usize>
        requires copy { Follows self.old lines.now line }
        requires within { line ≤ end }
        requires few { end ≤ 512 }
        ensures next { NextFrom lines.now line end result }
        ensures copy { CopiesNext self.new lines.now result }
    {
        if line % 64 != 0 {
            if let Some(place) = lowest_from(self.word, line % 64) {
                return Some(64 * (line / 64) + place);
            }
        }
        for index in line.div_ceil(64)..end.div_ceil(64) {
            let word = lines.words[index];
            if let Some(place) = lowest_from(word, 0) {
                self.word = word;
                return Some(64 * index + place);
            }
        }
        None
    }

    // Adds other lines to the set.
    #[inline(always)]
    pub(crate) fn add_all(&mut self, lines: &mut LineSet, other: &LineSet, line: usize)
        requires few { line < 512 }
        requires copy { Copies self.old lines.old line }
        ensures these { Includes lines.new lines.old }
        ensures those { Includes lines.new other.now }
        ensures words { Joined lines.old other.now lines.new }
        ensures copy { Copies self.new lines.new line }
    {
        lines.add_all(other);
        self.word |= other.words[line / 64];
    }
}
