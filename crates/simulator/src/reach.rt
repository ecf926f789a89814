// Where the effect of a fault can be seen.
ghost use Rattle.std.specs.Prelude.{◌≡◌, ◌<◌, All};
ghost use Rattle.std.specs.List.{list_any};
ghost use Rattle.simulator.specs.LineSets.{has};
ghost use Rattle.simulator.specs.Reach.{AllReached, OnlyReached, ReachEnd};

use crate::line_set::LineSet;
use circuit::{Circuit, MOST_LINES};
use faults::Fault;

// Whether one of these lines is in the set.
fn some_reached(lines: &[usize], reached: &LineSet) -> bool
    requires { All (λ line. line < 512) lines.now }
    ensures { result ≡ list_any (λ line. has reached.now line) lines.now }
{
    lines.iter().any(|line| reached.has(*line))
}

// The lines that the effect of the fault can reach: its own, and those of the gates that read such a line. No other line can have
// another level with the fault than without it.
fn reached_lines(circuit: &Circuit, fault: Fault) -> LineSet
    ensures all { AllReached circuit.now fault result }
    ensures only { OnlyReached circuit.now fault result }
{
    let mut reached = LineSet::empty();
    if fault.line() < MOST_LINES {
        reached = reached.with(fault.line());
    }
    let inputs = circuit.input_count();
    for (index, gate) in circuit.gates().iter().enumerate() {
        if some_reached(gate.operands.as_slice(), &reached) {
            reached.add(inputs + index);
        }
    }
    reached
}

// The line after the last output that the effect of the fault can reach, or 0 if it reaches none.
pub fn reach_end(circuit: &Circuit, fault: Fault) -> usize
    ensures { ReachEnd circuit.now fault result }
{
    let reached = reached_lines(circuit, fault);
    let mut end = 0;
    for output in circuit.outputs() {
        if *output >= end && reached.has(*output) {
            end = *output + 1;
        }
    }
    end
}
