// The plain tables of a circuit, which may yet break its rules.
use crate::gate::Gate;
use crate::name::Name;

#[derive(Drop)]
pub struct Tables {
    pub inputs: Vec<Name>,
    pub gates: Vec<Gate>,
    // line numbers, in the order in which they were written
    pub outputs: Vec<usize>,
}
