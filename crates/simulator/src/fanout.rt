// Which gates read each line of a circuit.
ghost use Rattle.std.specs.Prelude.{◌≡◌, ◌+◌, ◌<◌, ◌≤◌, true, ℕ, List, [], map, length, All, MatchOption};
ghost use Rattle.circuit.specs.Model.{Gate as GateModel, line_count};
ghost use Rattle.circuit.specs.Lawful.{gate_fits, each_after, lawful};
ghost use Rattle.circuit.specs.Tables.{gate_model};
ghost use Rattle.simulator.specs.LineSets.{IsEmpty};
ghost use Rattle.simulator.specs.Fanouts.{Keeps, Noted, Complete};

use crate::line_set::LineSet;
use circuit::{Circuit, Gate, MOST_LINES};

// Room for a fan-out: a set for each line. (An array and no `Vec`, since a visit takes no memory; and apart from the fan-out, which
// would be copied where it is handed on.)
#[derive(Drop)]
pub struct FanoutTable {
    readers: [LineSet; MOST_LINES],
}

impl FanoutTable {
    // A table of empty sets.
    pub fn new() -> FanoutTable
        ensures { All IsEmpty result.readers }
    {
        FanoutTable {
            readers: [LineSet::empty(); MOST_LINES],
        }
    }
}

// Room for a fan-out of so many lines at most, 64 say. It is made the faster, the fewer these are.
#[derive(Drop)]
pub struct SmallFanoutTable<const LINES: usize> {
    readers: [LineSet; LINES],
}

impl<const LINES: usize> SmallFanoutTable<LINES> {
    // A table of empty sets.
    pub fn new() -> SmallFanoutTable<LINES>
        ensures { All IsEmpty result.readers }
    {
        SmallFanoutTable {
            readers: [LineSet::empty(); LINES],
        }
    }
}

// A circuit, and for each of its lines the gates that read it: made once for all tries of a visit.
#[derive(Drop)]
pub struct Fanout<'a> {
    pub circuit: &'a Circuit,
    // the circuit's, asked for once
    pub(crate) inputs: usize,
    pub(crate) gates: &'a [Gate],
    pub(crate) readers: &'a [LineSet],
    ghost inputs_are: { inputs ≡ length circuit.now.inputs },
    ghost gates_are: { map gate_model gates.now ≡ circuit.now.gates },
    ghost rules: { lawful circuit.now ≡ true },
    ghost complete: { Complete (length circuit.now.inputs) circuit.now.gates readers.now },
    ghost long: { line_count circuit.now ≤ length readers.now },
}

// Notes the gate of a line at each line that it reads.
fn note_gate(line: usize, operands: &[usize], readers: &mut [LineSet])
    requires line { line < 512 }
    requires operands { All (λ (o : ℕ). o < length readers.old) operands.now }
    ensures keeps { Keeps readers.old readers.new }
    ensures noted { Noted line operands.now readers.new }
{
    for operand in operands {
        readers[*operand].add(line);
    }
}

// Notes each gate at each line that it reads.
fn note_gates(inputs: usize, gates: &[Gate], readers: &mut [LineSet])
    requires fit { each_after (λ (before : List GateModel). gate_fits (inputs + length before)) [] (map gate_model gates.now) ≡ true }
    requires room { inputs + length gates.now ≤ length readers.old }
    requires few { inputs + length gates.now ≤ 512 }
    ensures { Complete inputs (map gate_model gates.now) readers.new }
{
    for (line, gate) in (inputs..).zip(gates) {
        note_gate(line, gate.operands.as_slice(), readers);
    }
}

impl<'a> Fanout<'a> {
    // The gates that read each line of the circuit, noted in sets, one for each line.
    fn noted(circuit: &'a Circuit, readers: &'a mut [LineSet]) -> Fanout<'a>
        requires { lawful circuit.now ≡ true → line_count circuit.now ≤ length readers.old }
        ensures { result.circuit.now ≡ circuit.now }
    {
        let inputs = circuit.input_count();
        let gates = circuit.gates();
        note_gates(inputs, gates, readers);
        Fanout {
            circuit,
            inputs,
            gates,
            readers,
        }
    }

    // The gates that read each line of the circuit, noted in a table. (In a table that was lent before other gates may be noted too.)
    pub fn new(circuit: &'a Circuit, table: &'a mut FanoutTable) -> Fanout<'a>
        ensures { result.circuit.now ≡ circuit.now }
    {
        Fanout::noted(circuit, &mut table.readers)
    }

    // The same in a small table; nothing for a circuit of more lines than it has room for.
    pub fn small<const LINES: usize>(
        circuit: &'a Circuit,
        table: &'a mut SmallFanoutTable<LINES>,
    ) -> Option<Fanout<'a>>
        ensures { MatchOption result (LINES < line_count circuit.now) (λ fanout. fanout.circuit.now ≡ circuit.now) }
    {
        if circuit.line_count() > LINES {
            return None;
        }
        Some(Fanout::noted(circuit, &mut table.readers))
    }
}
