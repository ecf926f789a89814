// Whether a fault is excited.
ghost use Rattle.std.specs.Prelude.{◌≡◌, map, length};
ghost use Rattle.std.specs.Option.{option_map};
ghost use Rattle.circuit.specs.Model.{line_count};
ghost use Rattle.simulator.specs.Excitation.{stuck_set, excited};

use circuit::Circuit;
use faults::Fault;
use values::kind::ValueKind;

// What the fault's pin carries, with the fault, if the circuit has the pin.
#[inline(always)]
fn stuck_value<V: ValueKind>(circuit: &Circuit, fault: Fault, row: &[V]) -> Option<V>
    ensures { option_map V.ValueKind.meaning result ≡ stuck_set V.ValueKind.kind circuit.now fault (map V.ValueKind.meaning row.now) }
{
    let Some(place) = fault.pin().checked_sub(1) else {
        return row.get(fault.line()).copied();
    };
    let operand = circuit.gate(fault.line())?.operands.get(place)?;
    Some(row.get(*operand)?.stick(fault.level()))
}

// Whether the levels at the fault's pin, without the fault and with it, are unlike in each pair that the row's value there admits.
pub(crate) fn is_excited<V: ValueKind>(circuit: &Circuit, fault: Fault, row: &[V]) -> bool
    ensures { result ≡ excited V.ValueKind.kind circuit.now fault (map V.ValueKind.meaning row.now) }
{
    stuck_value(circuit, fault, row).is_some_and(|value: V| value.shows())
}
