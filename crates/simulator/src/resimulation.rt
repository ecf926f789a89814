// Simulation of a cube in a row that holds the values of another cube: a gate is worked out again only if a line that it reads has
// another value now. (Simulators of circuits call this selective trace.)
ghost use Rattle.std.specs.Prelude.{◌≡◌, ◌≤◌, ◌<◌, ◌&&◌, ◌⊎◌, Bool, true, map, length, drop, nat_lt, Ok};
ghost use Rattle.std.specs.List.{list_any};
ghost use Rattle.std.specs.Result.{result_map_both};
ghost use Rattle.values.specs.Pairs.{shows};
ghost use Rattle.circuit.specs.Model.{line_count};
ghost use Rattle.simulator.specs.Callers.{RowKept};
ghost use Rattle.simulator.specs.Simulation.{simulation_allowed, Simulates};
ghost use Rattle.simulator.specs.Detection.{set_of, AreLines, detected};
ghost use Rattle.simulator.specs.Reach.{UnseenFrom};
ghost use Rattle.simulator.specs.Resimulation.{Holds, changed_inputs, NextChanged, Writes, Redrives, Resettles};

use crate::cursor::Cursor;
use crate::excitation::is_excited;
use crate::fanout::Fanout;
use crate::gates::{at_pin, gate_value};
use crate::line_set::{LineSet, lowest_from};
use crate::simulation::{allow_simulation, input_value, judge, value_at};
use crate::socket::Socket;
use crate::verdict::Verdict;
use faults::{Cube, Fault};
use refusals::FolderRefusal;
use values::kind::ValueKind;

// The inputs that two cubes do not drive alike, bit i for input i.
fn changed_inputs(before: Cube, cube: Cube) -> u64
    ensures { result ≡ changed_inputs before cube }
{
    (before.driven() ^ cube.driven()) | (before.level() ^ cube.level())
}

// The first of the changed inputs from that one on.
#[inline(always)]
fn next_changed(changed: u64, from: usize, inputs: usize) -> Option<usize>
    requires { inputs ≤ 64 }
    ensures { NextChanged changed from inputs result }
{
    if from >= inputs {
        return None;
    }
    lowest_from(changed, from).filter(|input| *input < inputs)
}

// Writes the value of a line. Whether it is another one than before.
#[inline(always)]
fn write<V: ValueKind>(line: usize, value: V, row: &mut [V]) -> bool
    requires { line < length row.old }
    ensures { Writes V.ValueKind.meaning line value row.old row.new result }
{
    if value.equals(row[line]) {
        return false;
    }
    row[line] = value;
    true
}

// Works out the lines of the changed inputs, and gives gates that wait to be worked out then, among them each that reads a line whose
// value is another one than before.
#[inline(always)]
fn redrive<V: ValueKind>(
    fanout: &Fanout<'_>,
    before: Cube,
    cube: Cube,
    fault: Option<Fault>,
    row: &mut [V],
) -> LineSet
    requires { length row.old ≡ line_count fanout.now.circuit.now }
    ensures { Redrives V.ValueKind.kind V.ValueKind.meaning fanout.now.circuit.now fault before cube row.old row.new result }
{
    let readers = fanout.readers;
    let inputs = fanout.inputs;
    let changed = changed_inputs(before, cube);
    let mut waiting = LineSet::empty();
    let mut from = 0;
    while let Some(input) = next_changed(changed, from, inputs) {
        let value = at_pin(fault, input, 0, input_value(cube, input));
        if write(input, value, row) {
            waiting.add_all(&readers[input]);
        }
        from = input + 1;
    }
    waiting
}

// Works out the lines of the gates that wait, and of those that wait then, from one line to another.
fn resettle<V: ValueKind>(
    fanout: &Fanout<'_>,
    fault: Option<Fault>,
    waiting: &mut LineSet,
    from: usize,
    end: usize,
    row: &mut [V],
)
    requires gates { length fanout.now.circuit.now.inputs ≤ from }
    requires room { length row.old ≡ line_count fanout.now.circuit.now }
    requires within { end ≤ length row.old }
    ensures { Resettles V.ValueKind.kind V.ValueKind.meaning fanout.now.circuit.now fault from end waiting.old waiting.new row.old row.new }
{
    if from >= end {
        return;
    }
    let readers = fanout.readers;
    let inputs = fanout.inputs;
    let gates = fanout.gates;
    let gates = &gates[..end - inputs];
    let mut cursor = Cursor::at_line(waiting, from);
    let mut line = from;
    'lines: while let Some(next) = cursor.next_from(waiting, line, end) {
        let Some(gate) = gates.get(next - inputs) else {
            break;
        };
        let value = gate_value(gate, fault, &row[..next]);
        if write(next, value, row) {
            cursor.add_all(waiting, &readers[next], next);
        }
        line = next + 1;
    }
}

// Simulates the cube in a row that begins with the values of the circuit's lines under the cube `before`, with the fault that is
// in the socket: it gives what `simulate` gives. Of a row that does not begin so, it is left open which verdict is given and which
// values the row has then. Whether a verdict is given, or which refusal, is the same for every row of that length.
pub fn resimulate<V: ValueKind>(
    fanout: &Fanout<'_>,
    before: Cube,
    cube: Cube,
    socket: &Socket,
    row: &mut [V],
) -> Result<Verdict, FolderRefusal>
    ensures simulates { Holds V.ValueKind.kind V.ValueKind.meaning fanout.now.circuit.now socket.now.fault before row.old → Simulates V.ValueKind.kind V.ValueKind.meaning fanout.now.circuit.now socket.now.fault cube row.old row.new result }
    ensures allowed { result_map_both (λ _. tt) (λ e. e) result ≡ simulation_allowed fanout.now.circuit.now cube (length row.old) }
    ensures kept { RowKept result row.old row.new }
    ensures rest { drop (line_count fanout.now.circuit.now) row.new ≡ drop (line_count fanout.now.circuit.now) row.old }
{
    let circuit = fanout.circuit;
    allow_simulation(circuit, cube, row.len())?;
    let row = &mut row[..circuit.line_count()];
    let mut waiting = redrive(fanout, before, cube, socket.fault, row);
    resettle(
        fanout,
        socket.fault,
        &mut waiting,
        fanout.inputs,
        row.len(),
        row,
    );
    Ok(judge(circuit.outputs(), row))
}

// Whether some output before that line shows.
fn some_shows_before<V: ValueKind>(outputs: &[usize], end: usize, row: &[V]) -> bool
    requires { AreLines outputs.now row.now }
    ensures { result ≡ list_any (λ output. nat_lt output end && shows (set_of (map V.ValueKind.meaning row.now) output)) outputs.now }
{
    outputs
        .iter()
        .any(|output| *output < end && value_at(row, *output).shows())
}

// Whether the kind shows the cube to detect the fault that is in the socket, in a row that begins with the values of the circuit's
// lines under the cube `before`. No output from the line `end` on may be seen (`reach_end` gives such a line). By another end a yes is
// right too, but not a no. Of another row it is left open what is answered. To save time, no line from the end on is worked out, and
// none behind the fault's line where the fault is not excited. So the row need not hold the values of any cube afterwards.
pub fn reshows<V: ValueKind>(
    fanout: &Fanout<'_>,
    before: Cube,
    cube: Cube,
    socket: &Socket,
    end: usize,
    row: &mut [V],
) -> Result<bool, FolderRefusal>
    ensures detected { (b : Bool) → result ≡ Ok b → Holds V.ValueKind.kind V.ValueKind.meaning fanout.now.circuit.now socket.now.fault before row.old → ((b ≡ true) ⊎ UnseenFrom fanout.now.circuit.now socket.now.fault end) → b ≡ detected V.ValueKind.kind fanout.now.circuit.now socket.now.fault cube }
    ensures allowed { result_map_both (λ _. tt) (λ e. e) result ≡ simulation_allowed fanout.now.circuit.now cube (length row.old) }
    ensures kept { RowKept result row.old row.new }
    ensures rest { drop (line_count fanout.now.circuit.now) row.new ≡ drop (line_count fanout.now.circuit.now) row.old }
{
    let circuit = fanout.circuit;
    allow_simulation(circuit, cube, row.len())?;
    let row = &mut row[..circuit.line_count()];
    let Some(fault) = socket.fault else {
        return Ok(false);
    };
    if fault.line() >= row.len() {
        return Ok(false);
    }
    let mut waiting = redrive(fanout, before, cube, Some(fault), row);
    let behind = fanout.inputs.max(fault.line() + 1);
    resettle(
        fanout,
        Some(fault),
        &mut waiting,
        fanout.inputs,
        behind,
        row,
    );
    if !is_excited(circuit, fault, row) {
        return Ok(false);
    }
    let end = end.min(row.len());
    resettle(fanout, Some(fault), &mut waiting, behind, end, row);
    Ok(some_shows_before(circuit.outputs(), end, row))
}
