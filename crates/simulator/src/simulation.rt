// Simulation of a circuit under a cube.
ghost use Rattle.std.specs.Prelude.{◌≡◌, ◌+◌, ◌<◌, true, List, [], map, length, take, Some, None, Decides};
ghost use Rattle.circuit.specs.Model.{Gate as GateModel};
ghost use Rattle.circuit.specs.Lawful.{gate_fits, each_after};
ghost use Rattle.circuit.specs.Tables.{gate_model};
ghost use Rattle.simulator.specs.Lines.{inputs_row, gate_value, gates_after};
ghost use Rattle.simulator.specs.Detection.{input_value, set_of, AreLines, some_shows, all_still, judged};
ghost use Rattle.simulator.specs.Simulation.{drives_beyond, DrivesBeyond, row_allowed, simulation_allowed, Simulates};
ghost use Rattle.simulator.specs.Laws.{Telling};
ghost use Rattle.simulator.specs.Logic.{LevelsAreLogic};

use crate::gates::{at_pin, gate_value};
use crate::socket::Socket;
use crate::verdict::Verdict;
use circuit::{Circuit, Gate};
use faults::{Cube, Fault};
use refusals::FolderRefusal;
use values::kind::ValueKind;

// What a cube gives an input.
#[inline(always)]
pub(crate) fn input_value<V: ValueKind>(cube: Cube, input: usize) -> V
    ensures { V.ValueKind.meaning result ≡ input_value V.ValueKind.kind cube input }
{
    cube.level_at(input)
        .map_or(V::unknown(), |level| V::known(level))
}

// Works out the lines of the inputs.
fn drive<V: ValueKind>(cube: Cube, fault: Option<Fault>, row: &mut [V])
    ensures { map V.ValueKind.meaning row.new ≡ inputs_row V.ValueKind.kind.values fault (input_value V.ValueKind.kind cube) (length row.old) }
{
    for (input, value) in row.iter_mut().enumerate() {
        *value = at_pin(fault, input, 0, input_value(cube, input));
    }
}

// Works out the lines of the gates, below which those of the inputs stand.
fn settle<V: ValueKind>(inputs: usize, gates: &[Gate], fault: Option<Fault>, row: &mut [V])
    requires fit { each_after (λ (before : List GateModel). gate_fits (inputs + length before)) [] (map gate_model gates.now) ≡ true }
    requires room { inputs + length gates.now ≡ length row.old }
    ensures { map V.ValueKind.meaning row.new ≡ gates_after V.ValueKind.kind.values fault (map V.ValueKind.meaning (take inputs row.old)) (map gate_model gates.now) }
{
    for (line, gate) in (inputs..).zip(gates) {
        row[line] = gate_value(gate, fault, &row[..line]);
    }
}

// The value of a line of the row.
pub(crate) fn value_at<V: ValueKind>(row: &[V], line: usize) -> V
    requires { line < length row.now }
    ensures { V.ValueKind.meaning result ≡ set_of (map V.ValueKind.meaning row.now) line }
{
    row[line]
}

// Whether some output's value shows. (No struct of outputs and row: it would be made once, for two questions of one line each.)
fn some_shows<V: ValueKind>(outputs: &[usize], row: &[V]) -> bool
    requires { AreLines outputs.now row.now }
    ensures { result ≡ some_shows (map V.ValueKind.meaning row.now) outputs.now }
{
    outputs.iter().any(|output| value_at(row, *output).shows())
}

// Whether every output's value is still.
fn all_still<V: ValueKind>(outputs: &[usize], row: &[V]) -> bool
    requires { AreLines outputs.now row.now }
    ensures { result ≡ all_still (map V.ValueKind.meaning row.now) outputs.now }
{
    outputs.iter().all(|output| value_at(row, *output).still())
}

// The verdict on the lines of a row.
pub(crate) fn judge<V: ValueKind>(outputs: &[usize], row: &[V]) -> Verdict
    requires { AreLines outputs.now row.now }
    ensures { result ≡ judged (map V.ValueKind.meaning row.now) outputs.now }
{
    if some_shows(outputs, row) {
        Verdict::Shows
    } else if all_still(outputs, row) {
        Verdict::Still
    } else {
        Verdict::Unsure
    }
}

// Whether the cube drives an input that the circuit lacks. (No struct of circuit and cube: a visit tries many cubes on one circuit,
// and would make a pair for each.)
pub fn drives_beyond(circuit: &Circuit, cube: Cube) -> bool
    ensures value { result ≡ drives_beyond circuit.now cube }
    ensures rule { Decides result (DrivesBeyond circuit.now cube) }
{
    let past = cube.driven().checked_shr(circuit.input_count() as u32);
    past.unwrap_or(0) > 0
}

// Whether a row of so many places has room for each line of the circuit.
pub fn allow_row(circuit: &Circuit, places: usize) -> Result<(), FolderRefusal>
    ensures { result ≡ row_allowed circuit.now places }
{
    if places < circuit.line_count() {
        return Err(FolderRefusal::RowTooShort);
    }
    Ok(())
}

// Whether a cube can be simulated in a row of so many places.
pub fn allow_simulation(circuit: &Circuit, cube: Cube, places: usize) -> Result<(), FolderRefusal>
    ensures { result ≡ simulation_allowed circuit.now cube places }
{
    if drives_beyond(circuit, cube) {
        return Err(FolderRefusal::InputMissing);
    }
    allow_row(circuit, places)
}

// Works out each line's value under the cube, with the fault in the socket if there is one, and gives the verdict on the
// outputs. The values stand at the front of the row, line by line. The rest of the row is unchanged, and all of it if the
// call is refused.
pub fn simulate<V: ValueKind>(
    circuit: &Circuit,
    cube: Cube,
    socket: &Socket,
    row: &mut [V],
) -> Result<Verdict, FolderRefusal>
    ensures { Simulates V.ValueKind.kind V.ValueKind.meaning circuit.now socket.now.fault cube row.old row.new result }
{
    allow_simulation(circuit, cube, row.len())?;
    let row = &mut row[..circuit.line_count()];
    let inputs = circuit.input_count();
    drive(cube, socket.fault, &mut row[..inputs]);
    settle(inputs, circuit.gates(), socket.fault, row);
    Ok(judge(circuit.outputs(), row))
}

// Plugs the fault for one simulation. (Socket and row are two parameters, here and in the calls above it: each has what becomes of
// it in a clause of its own, and a struct of both would be taken apart in each call.)
// The socket is empty afterwards, whether the simulation is granted or refused.
pub fn simulate_fault<V: ValueKind>(
    circuit: &Circuit,
    cube: Cube,
    fault: Fault,
    socket: &mut Socket,
    row: &mut [V],
) -> Result<Verdict, FolderRefusal>
    ensures simulates { Simulates V.ValueKind.kind V.ValueKind.meaning circuit.now (Some fault) cube row.old row.new result }
    ensures empty { socket.new.fault ≡ None }
{
    let plug = socket.plug(fault);
    let answer = simulate(circuit, cube, plug.socket(), row);
    plug.unplug();
    answer
}

// Runs nothing: its contract is a theorem that the crate owes, for every kind.
// Under every circuit, fault and cube, simulation keeps the vectors that fill in the cube; a cube that shows is a test;
// below a still cube no vector detects; and a vector that detects is a cube that shows.
pub fn simulation_tells<V: ValueKind>()
    ensures { Telling V.ValueKind.kind }
{}

// Runs nothing: its contract is a theorem that the crate owes. In the levels that the definitions give the lines of a circuit, step by
// step, each line has what its gate makes of the lines that it reads; and no other levels are so.
pub fn levels_are_logic()
    ensures { LevelsAreLogic }
{}
