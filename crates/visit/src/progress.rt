// How far a visit has come.
ghost use Rattle.std.specs.Prelude.{◌≡◌};
ghost use Rattle.visit.specs.Visiting.{fewer, at_start, progress_answer};
ghost use Rattle.visit.specs.Visits.{going_on, left};

use crate::answer::Answer;
use faults::Cube;

#[derive(Clone, Copy, Debug, PartialEq, Eq)]
pub struct Progress {
    // the cube that shows with the fewest driven inputs so far
    pub best: Option<Cube>,
    pub tries: usize,
}

// Why a visit is given up: a try is due, and the budget allows none.
#[derive(Clone, Copy, Debug, PartialEq, Eq)]
pub struct BudgetSpent;

impl Progress {
    // Nothing was tried yet.
    pub fn new() -> Progress
        ensures { going_on result ≡ at_start }
    {
        Progress {
            best: None,
            tries: 0,
        }
    }

    // Whether a cube drives fewer inputs than the best, or there is no best.
    pub fn is_beaten_by(&self, cube: Cube) -> bool
        ensures { result ≡ fewer cube self.now.best }
    {
        self.best.is_none_or(|best| cube.driven().count_ones() < best.driven().count_ones())
    }

    // The answer of a visit that ended so.
    pub fn answer(&self, end: Result<(), BudgetSpent>) -> Answer
        ensures { result ≡ progress_answer (left self.now end) }
    {
        let tries = self.tries;
        match (end, self.best) {
            (Err(BudgetSpent), best) => Answer::Spent { best, tries },
            (Ok(()), Some(cube)) => Answer::Fewest { cube, tries },
            (Ok(()), None) => Answer::Redundant { tries },
        }
    }
}
