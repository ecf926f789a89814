// A cube: which inputs are driven and to which level, bit i for input i. The other inputs are open. (Two words and no list of levels:
// what it drives beyond a circuit, and how many inputs it drives, is one operation on a word, and a cube is copied at each try.)
use std::marker::Model;

#[derive(Clone, Copy, Debug, PartialEq, Eq)]
pub struct Cube {
    pub(crate) driven: u64,
    pub(crate) level: u64,
}

// A contract sees a cube as its two words. An input that is open has no level.
impl Model for Cube {
    ghost use Rattle.std.specs.Prelude.{◌≡◌, bit_and};
    ghost use Rattle.faults.specs.Cubes.{Cube as Described};

    ghost Value = { Described };

    ghost view = { λ q. record { driven = q.driven; level = q.level } };

    ghost invariant = { λ q. bit_and q.level q.driven ≡ q.level };

    ghost inverse = { λ q. record { driven = q.driven; level = q.level } };
}
