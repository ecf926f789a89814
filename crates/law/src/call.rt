// The calls that change a folder, and what they answer where they are granted. They are values, and not methods alone, since the
// law speaks of histories of calls.
use faults::StuckAt;
use visit::Answer;

#[derive(Clone, Copy, Debug, PartialEq, Eq)]
pub enum Call {
    // enter the fault that is asked for
    Enter { fault: StuckAt },
    // look for a test for the entry of that number, in at most so many tries
    Search { number: usize, budget: usize },
    // cover by the entry of that number
    Cover { number: usize },
}

#[derive(Clone, Copy, Debug, PartialEq, Eq)]
pub enum Outcome {
    // the number of the new entry
    Entered { number: usize },
    Searched { answer: Answer },
    // how many entries were marked
    Covered { count: usize },
}
