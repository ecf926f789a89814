// The rules that every circuit keeps, as tests of plain tables.
ghost use Rattle.std.specs.Prelude.{◌≡◌, ℕ, ◌+◌, ◌&&◌, List, [], map, length, take, None, nat_le, slice_index_or};
ghost use Rattle.circuit.specs.Model.{Gate as GateModel, names, line_count};
ghost use Rattle.circuit.specs.Lawful.{gate_fits, each_after, unclaimed, new_output, between, lawful};
ghost use Rattle.circuit.specs.Tables.{gate_model, tables_model};

use crate::gate::Gate;
use crate::tables::Tables;

pub const MOST_INPUTS: usize = 64;

// Inputs and gates together.
pub const MOST_LINES: usize = 512;

pub const MOST_OUTPUTS: usize = 64;

impl Gate {
    // Whether the gate has as many operands as its operator takes, each a line below its own.
    fn fits(&self, line: usize) -> bool
        ensures { result ≡ gate_fits line (gate_model self.now) }
    {
        (self.op.fewest()..=self.op.most()).contains(&self.operands.len())
            && self.operands.iter().all(|operand| *operand < line)
    }
}

impl Tables {
    // Whether there are as many inputs, lines and outputs as a circuit may have.
    fn sizes_fit(&self) -> bool
        ensures { result ≡ (between 1 64 (length (tables_model self.now).inputs) && (nat_le (line_count (tables_model self.now)) 512 && between 1 64 (length (tables_model self.now).outputs))) }
    {
        (1..=MOST_INPUTS).contains(&self.inputs.len())
            && self.line_count() <= MOST_LINES
            && (1..=MOST_OUTPUTS).contains(&self.outputs.len())
    }

    // Whether each gate fits its line.
    fn gates_fit(&self) -> bool
        ensures { result ≡ each_after (λ (before : List GateModel). gate_fits (length (tables_model self.now).inputs + length before)) [] (tables_model self.now).gates }
    {
        (self.inputs.len()..self.line_count())
            .zip(&self.gates)
            .all(|(line, gate)| gate.fits(line))
    }

    // Whether no line before this one has its name.
    fn is_unclaimed(&self, line: usize) -> bool
        ensures { result ≡ unclaimed (take line (names (tables_model self.now))) (slice_index_or (names (tables_model self.now)) line None) }
    {
        self.line_name(line)
            .is_none_or(|name| self.named_below(line, name.bytes()).is_none())
    }

    // Whether no two lines have one name.
    fn names_differ(&self) -> bool
        ensures { result ≡ each_after unclaimed [] (names (tables_model self.now)) }
    {
        (0..self.line_count()).all(|line| self.is_unclaimed(line))
    }

    // Whether each output is a line, and none is listed twice.
    fn outputs_differ(&self) -> bool
        ensures { result ≡ each_after (new_output (line_count (tables_model self.now))) [] (tables_model self.now).outputs }
    {
        let lines = self.line_count();
        self.outputs.iter().enumerate().all(|(index, output)| *output < lines
            && !self.outputs[..index].contains(output))
    }

    // Whether the tables keep all rules.
    pub(crate) fn is_lawful(&self) -> bool
        ensures { result ≡ lawful (tables_model self.now) }
    {
        self.sizes_fit() && self.gates_fit() && self.names_differ() && self.outputs_differ()
    }
}
