// What a simulation says of a cube.
ghost use Rattle.std.specs.Prelude.{Some};
ghost use Rattle.simulator.specs.Words.{verdict_word};

use std::fmt;

#[derive(Clone, Copy, Debug, PartialEq, Eq)]
pub enum Verdict {
    // some output's value shows: however the cube is filled in, the fault can be seen
    Shows,
    // every output's value is still: however the cube is filled in, the fault cannot be seen
    Still,
    // neither
    Unsure,
}

// A verdict as it is written.
impl fmt::Display for Verdict {
    ghost output = { λ v. Some (verdict_word v) };

    fn fmt<W: fmt::Write>(&self, f: &mut fmt::Formatter<W>) -> fmt::Result {
        f.write_str(match self {
            Verdict::Shows => "shows",
            Verdict::Still => "still",
            Verdict::Unsure => "unsure",
        })
    }
}
