// What a visit answers, with the number of tries that it made.
use faults::Cube;

#[derive(Clone, Copy, Debug, PartialEq, Eq)]
pub enum Answer {
    // a test; no cube that the kind shows to be one drives fewer inputs
    Fewest { cube: Cube, tries: usize },
    // no vector detects the fault
    Redundant { tries: usize },
    // a further try was due when the budget was used up; the best cube so far
    Spent { best: Option<Cube>, tries: usize },
}
