// What is known of a fault, as it is written: the word of the state, its cube and its count.
ghost use Rattle.std.specs.Prelude.{Some};
ghost use Rattle.replies.specs.Lines.{state_text};

use crate::cube_text::CubeText;
use folder::State;
use std::fmt;

#[derive(Clone, Copy)]
pub struct StateText {
    pub state: State,
    pub inputs: usize,
}

impl fmt::Display for StateText {
    ghost output = { λ t. Some (state_text t.state t.inputs) };

    fn fmt<W: fmt::Write>(&self, f: &mut fmt::Formatter<W>) -> fmt::Result {
        let state = self.state;
        let cube = CubeText {
            cube: state.cube(),
            inputs: self.inputs,
        };
        let count = state.count();
        write!(f, "{state} {cube} {count}")
    }
}
