// Values of lines in a circuit with and without a fault: what a value kind is, and the kinds five, seven and nine.
#![tactic(auto)]

pub mod five;
pub mod half;
pub mod kind;
pub mod nine;
pub mod seven;

ghost use Rattle.values.specs.Five.{FiveSmallest};
ghost use Rattle.values.specs.KnownValues.{KnownValues};
ghost use Rattle.values.specs.Made.{MadeExactly};
ghost use Rattle.values.specs.Nine.{NineSmallest};
ghost use Rattle.values.specs.Seven.{SevenSmallest};

// What follows runs nothing: each contract is a theorem that the crate owes.

// What operands can make is what the function gives of their pairs, and no other pair.
pub fn made_is_exact()
    ensures { MadeExactly }
{}

// Each answer of five is the smallest of its five sets that holds what the operands can make.
pub fn five_is_smallest()
    ensures { FiveSmallest }
{}

// Each answer of seven, defined by halves, is the smallest of its seven sets that holds what the operands can make.
pub fn seven_is_smallest()
    ensures { SevenSmallest }
{}

// Each answer of nine, defined by halves, is the smallest of its nine sets that holds what the operands can make.
pub fn nine_is_smallest()
    ensures { NineSmallest }
{}

// Answers that are known beforehand come out of the definitions.
pub fn known_values()
    ensures { KnownValues }
{}
