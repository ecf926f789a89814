// A gate whose closing bracket is still to come.
ghost use Rattle.std.specs.Prelude.{◌≡◌, true, false, MatchResult};
ghost use Rattle.refusals.specs.declared.layers.FormRefusal.TheVariants.{WrongOperandCount};
ghost use Rattle.reader.specs.Reading.{full, too_few};
ghost use Rattle.reader.specs.Gates.{pending_of};

use circuit::Op;
use refusals::FormRefusal;
use words::PlacedWord;

// Its operator, its operands so far, and how many more brackets may be opened inside it.
#[derive(Drop)]
pub struct PendingGate {
    pub op: Op,
    pub operands: Vec<usize>,
    pub allowed: usize,
}

// What stands next inside a gate.
#[derive(Clone, Copy, Debug, PartialEq, Eq)]
pub enum GatePart<'a> {
    // an operand that is a name
    Name { word: PlacedWord<'a> },
    // the opening bracket of an operand that is a gate, inside which so many more may be opened
    Opening { allowed: usize },
    // the gate's closing bracket
    Closing { place: usize },
}

impl PendingGate {
    // Refuses an operand that begins at that place where the gate takes no further one.
    pub fn expect_room(&self, place: usize) -> Result<(), FormRefusal>
        ensures { MatchResult result (λ _. full (pending_of self.now) ≡ false) (λ e. (full (pending_of self.now) ≡ true) × (e ≡ WrongOperandCount place)) }
    {
        if self.operands.len() >= self.op.most() {
            return Err(FormRefusal::WrongOperandCount { place });
        }
        Ok(())
    }

    // Refuses a closing bracket at that place where the gate has too few operands.
    pub fn expect_enough(&self, place: usize) -> Result<(), FormRefusal>
        ensures { MatchResult result (λ _. too_few (pending_of self.now) ≡ false) (λ e. (too_few (pending_of self.now) ≡ true) × (e ≡ WrongOperandCount place)) }
    {
        if self.operands.len() < self.op.fewest() {
            return Err(FormRefusal::WrongOperandCount { place });
        }
        Ok(())
    }
}
