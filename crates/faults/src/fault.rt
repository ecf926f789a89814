// Stuck-at faults of a circuit.
ghost use Rattle.std.specs.Prelude.{◌≡◌, Decides};
ghost use Rattle.faults.specs.Faults.{fault_made, same_fault};
ghost use Rattle.faults.specs.declared.fault.Fault.{Fault as FaultModel};

use crate::stuck_at::StuckAt;
use circuit::Circuit;
use refusals::FolderRefusal;

// One pin of one line keeps one level, whatever drives it. (The pin is one number: an enum of the line itself and an operand would be
// made of the number in `new`, and turned back into it for each listing and each look at a pin.)
#[derive(Clone, Copy, Debug, PartialEq, Eq)]
pub struct Fault {
    line: usize,
    // 0 is the line itself, and k the k-th operand of its gate
    pin: usize,
    level: bool,
}

impl Fault {
    // The fault of that line and pin, stuck at that level, if the circuit has such a pin.
    pub fn new(circuit: &Circuit, asked: StuckAt) -> Result<Fault, FolderRefusal>
        ensures { result ≡ fault_made circuit.now asked.line asked.pin asked.level }
    {
        let StuckAt { line, pin, level } = asked;
        if line >= circuit.line_count() {
            return Err(FolderRefusal::NoSuchLine);
        }
        if pin > circuit.operand_count(line) {
            return Err(FolderRefusal::NoSuchPin);
        }
        if level > 1 {
            return Err(FolderRefusal::LevelAboveOne);
        }
        let level = level == 1;
        Ok(Fault { line, pin, level })
    }

    pub fn line(self) -> usize
        ensures { result ≡ self.line }
    {
        self.line
    }

    pub fn pin(self) -> usize
        ensures { result ≡ self.pin }
    {
        self.pin
    }

    // The level that the pin keeps.
    pub fn level(self) -> bool
        ensures { result ≡ self.level }
    {
        self.level
    }
}

// Runs nothing: its contract is a theorem that the crate owes. `==` says yes of a fault and itself, and of no two others.
pub fn equal_faults_are_one()
    ensures value { (f g : FaultModel) → ⟦<Fault as PartialEq>⟧.eq f g ≡ same_fault f g }
    ensures rule { (f g : FaultModel) → Decides (⟦<Fault as PartialEq>⟧.eq f g) (f ≡ g) }
{}
