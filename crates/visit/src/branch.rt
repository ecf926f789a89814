// A cube that a visit meets.
ghost use Rattle.std.specs.Prelude.{◌^◌, ◌<◌};

use faults::Cube;

// A cube, and the first input from which on it drives none: the cubes below it drive those.
#[derive(Clone, Copy, Debug, PartialEq, Eq)]
pub struct Branch {
    pub cube: Cube,
    pub next: usize,
    ghost lower: { cube.driven < 2 ^ next },
    ghost level_lower: { cube.level < 2 ^ next },
}
