// A gate: what it does, and the lines that it reads.
use crate::name::Name;
use crate::op::Op;

#[derive(Drop)]
pub struct Gate {
    // a gate that was written inside another has none
    pub name: Option<Name>,
    pub op: Op,
    // the numbers of the lines: the text of a circuit numbers its lines, and several gates can read one
    pub operands: Vec<usize>,
}
