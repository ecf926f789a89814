// What one gate carries, worked out from the lines before it.
ghost use Rattle.std.specs.Prelude.{◌≡◌, ◌<◌, true, map, length, nat_lt};
ghost use Rattle.std.specs.List.{list_all};
ghost use Rattle.circuit.specs.declared.op.Op as op_model;
ghost use Rattle.circuit.specs.Lawful.{gate_fits};
ghost use Rattle.circuit.specs.Tables.{gate_model};
ghost use Rattle.simulator.specs.Lines.{at_pin, join, joined, negated_by, operands_from, gate_value};

use circuit::{Gate, Op};
use faults::Fault;
use values::kind::ValueKind;

// The value at a pin of a line: stuck if the fault is at that pin. (No struct of fault and line: it would be made anew for each
// input, to be asked once. None of fault and row: a gate reads the front of the row in which it is written.)
#[inline(always)]
pub fn at_pin<V: ValueKind>(fault: Option<Fault>, line: usize, pin: usize, value: V) -> V
    ensures { V.ValueKind.meaning result ≡ at_pin V.ValueKind.kind.values fault line pin (V.ValueKind.meaning value) }
{
    match fault {
        Some(fault) if fault.line() == line && fault.pin() == pin => value.stick(fault.level()),
        _ => value,
    }
}

// What the operands of the gate of a line come to by a closure, which joins each to what came of those to its left. By whatever operator it joins,
// the result is what that operator makes of them.
#[inline(always)]
fn fold_operands<V: ValueKind, J: Fn(V, V) -> V>(
    combine: J,
    fault: Option<Fault>,
    operands: &[usize],
    row: &[V],
) -> V
    requires callable { J.IsAlwaysCallable combine }
    requires some { 0 < length operands.now }
    requires lines { list_all (λ o. nat_lt o (length row.now)) operands.now ≡ true }
    ensures { (op : op_model.Op) → ((x y z : V) → J.post combine x y z → V.ValueKind.meaning z ≡ join V.ValueKind.kind.values.gates op (V.ValueKind.meaning x) (V.ValueKind.meaning y)) → V.ValueKind.meaning result ≡ joined V.ValueKind.kind.values.gates op (operands_from V.ValueKind.kind.values fault (map V.ValueKind.meaning row.now) (length row.now) 1 operands.now) }
{
    let line = row.len();
    // most gates have two operands, and these need no loop
    if let [left, right] = operands {
        return combine(
            at_pin(fault, line, 1, row[*left]),
            at_pin(fault, line, 2, row[*right]),
        );
    }
    let [first, others @ ..] = operands else {
        unreachable!()
    };
    let mut value = at_pin(fault, line, 1, row[*first]);
    // by a `fold` two goals stay open: that its closure may be called at each operand, and what the fold gives
    for (index, operand) in others.iter().enumerate() {
        value = combine(value, at_pin(fault, line, index + 2, row[*operand]));
    }
    value
}

// What the operands of the gate of a line come to. The operator is chosen here, once, before the first of them is joined.
#[inline(always)]
fn joined<V: ValueKind>(op: Op, fault: Option<Fault>, operands: &[usize], row: &[V]) -> V
    requires some { 0 < length operands.now }
    requires lines { list_all (λ o. nat_lt o (length row.now)) operands.now ≡ true }
    ensures { V.ValueKind.meaning result ≡ joined V.ValueKind.kind.values.gates op (operands_from V.ValueKind.kind.values fault (map V.ValueKind.meaning row.now) (length row.now) 1 operands.now) }
{
    match op {
        Op::And | Op::Nand => fold_operands(V::and, fault, operands, row),
        Op::Or | Op::Nor => fold_operands(V::or, fault, operands, row),
        Op::Xor | Op::Xnor => fold_operands(V::xor, fault, operands, row),
        // there is one operand, and nothing to join
        Op::Not | Op::Buf => fold_operands(|value, _| value, fault, operands, row),
    }
}

// The joined operands' value, negated if the operator negates.
#[inline(always)]
fn negated_by<V: ValueKind>(op: Op, value: V) -> V
    ensures { V.ValueKind.meaning result ≡ negated_by V.ValueKind.kind.values.gates op (V.ValueKind.meaning value) }
{
    match op {
        Op::Nand | Op::Nor | Op::Xnor | Op::Not => value.not(),
        Op::And | Op::Or | Op::Xor | Op::Buf => value,
    }
}

// What a gate carries whose line comes next after those of the row, with the fault if it is at that line.
#[inline(always)]
fn value_by<V: ValueKind>(gate: &Gate, fault: Option<Fault>, row: &[V]) -> V
    requires { gate_fits (length row.now) (gate_model gate.now) ≡ true }
    ensures { V.ValueKind.meaning result ≡ gate_value V.ValueKind.kind.values fault (map V.ValueKind.meaning row.now) (gate_model gate.now) }
{
    let value = joined(gate.op, fault, gate.operands.as_slice(), row);
    at_pin(fault, row.len(), 0, negated_by(gate.op, value))
}

// What a gate carries whose line comes next after those of the row. Whether the fault is at that line is asked once: at each other
// gate no pin is asked for the fault.
#[inline(always)]
pub fn gate_value<V: ValueKind>(gate: &Gate, fault: Option<Fault>, row: &[V]) -> V
    requires { gate_fits (length row.now) (gate_model gate.now) ≡ true }
    ensures { V.ValueKind.meaning result ≡ gate_value V.ValueKind.kind.values fault (map V.ValueKind.meaning row.now) (gate_model gate.now) }
{
    match fault {
        Some(fault) if fault.line() == row.len() => value_by(gate, Some(fault), row),
        _ => value_by(gate, None, row),
    }
}
