// A cube as it is written: for each input 0, 1 or x, or `none` where there is no cube.
ghost use Rattle.std.specs.Prelude.{◌≡◌, Some};
ghost use Rattle.std.specs.Fmt.{WritesOnOk};
ghost use Rattle.replies.specs.Texts.{cube_text, levels, level_letter};

use faults::Cube;
use std::fmt;

#[derive(Clone, Copy)]
pub struct CubeText {
    pub cube: Option<Cube>,
    pub inputs: usize,
}

// The letter of one input.
fn letter(cube: Cube, input: usize) -> char
    ensures { result ≡ level_letter cube.driven cube.level input }
{
    match cube.level_at(input) {
        None => 'x',
        Some(false) => '0',
        Some(true) => '1',
    }
}

// Writes the letter of each input in turn.
fn write_levels<W: fmt::Write>(cube: Cube, inputs: usize, f: &mut fmt::Formatter<W>) -> fmt::Result
    ensures { WritesOnOk W.Write.write_str_gives f.old result (levels cube.driven cube.level 0 inputs) f.new }
{
    for input in 0..inputs {
        f.write_char(letter(cube, input))?;
    }
    Ok(())
}

impl fmt::Display for CubeText {
    ghost output = { λ t. Some (cube_text t.cube t.inputs) };

    fn fmt<W: fmt::Write>(&self, f: &mut fmt::Formatter<W>) -> fmt::Result {
        match self.cube {
            None => f.write_str("none"),
            Some(cube) => write_levels(cube, self.inputs, f),
        }
    }
}
