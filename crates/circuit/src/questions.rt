// What a caller can ask of the tables of a circuit, and of a circuit.
ghost use Rattle.std.specs.Prelude.{◌≡◌, ◌≤◌, true, map, length, take, None, nat_eq, slice_index_or};
ghost use Rattle.std.specs.List.{list_any};
ghost use Rattle.std.specs.Option.{option_map};
ghost use Rattle.circuit.specs.Model.{names, has_name, line_named, line_count, gate_at, operand_count};
ghost use Rattle.circuit.specs.Lawful.{lawful};
ghost use Rattle.circuit.specs.Tables.{gate_model, tables_model};

use crate::circuit::Circuit;
use crate::gate::Gate;
use crate::name::Name;
use crate::tables::Tables;

// Whether a line, by the name that it has or lacks, has that name.
fn has_name(name: Option<&Name>, word: &[u8]) -> bool
    ensures { result ≡ has_name word.now (option_map (λ n. n.now) name.entry) }
{
    name.is_some_and(|name| name.bytes() == word)
}

impl Tables {
    // Inputs and gates together.
    pub fn line_count(&self) -> usize
        ensures { result ≡ line_count (tables_model self.now) }
    {
        self.inputs.len() + self.gates.len()
    }

    // The gate whose line has that number; an input has none.
    pub(crate) fn gate(&self, line: usize) -> Option<&Gate>
        ensures { option_map (λ g. gate_model g.now) result ≡ gate_at (tables_model self.now) line }
    {
        self.gates.get(line.checked_sub(self.inputs.len())?)
    }

    // The name of a line, if there is such a line and it has one. (With `or_else` and a closure for the gate's name the proof
    // stayed open: the closure does not know that the line is past the inputs.)
    #[tactic(auto, using(crate::proofs::Named::input_name_at))]
    pub(crate) fn line_name(&self, line: usize) -> Option<&Name>
        ensures { option_map (λ n. n.now) result ≡ slice_index_or (names (tables_model self.now)) line None }
    {
        match self.inputs.get(line) {
            Some(name) => Some(name),
            None => self.gate(line)?.name.as_ref(),
        }
    }

    // The first of the lines below `count` that has the name. (By number, since inputs and gates have their names in two lists: a
    // `position` would first chain these and map each to its name.)
    pub fn named_below(&self, count: usize, word: &[u8]) -> Option<usize>
        ensures { result ≡ line_named (take count (names (tables_model self.now))) word.now }
    {
        (0..count).find(|line| has_name(self.line_name(*line), word))
    }

    // The line of that name.
    pub fn line_named(&self, word: &[u8]) -> Option<usize>
        ensures { result ≡ line_named (names (tables_model self.now)) word.now }
    {
        self.named_below(self.line_count(), word)
    }

    // Whether that line is among the outputs.
    pub fn has_output(&self, line: usize) -> bool
        ensures { result ≡ list_any (nat_eq line) (tables_model self.now).outputs }
    {
        self.outputs.contains(&line)
    }
}

impl Circuit {
    pub fn input_count(&self) -> usize
        ensures value { result ≡ length self.now.inputs }
        ensures bound { result ≤ 64 }
    {
        self.tables.inputs.len()
    }

    // Inputs and gates together. (This and the three questions after it are handed on to the tables. With a `tables()` in their place
    // each caller would write one call more, and its proof speak of the tables that it got and not of the circuit.)
    pub fn line_count(&self) -> usize
        ensures { result ≡ line_count self.now }
    {
        self.tables.line_count()
    }

    // The name of a line, if there is such a line and it has one.
    pub fn line_name(&self, line: usize) -> Option<&Name>
        ensures { option_map (λ n. n.now) result ≡ slice_index_or (names self.now) line None }
    {
        self.tables.line_name(line)
    }

    // The line of that name.
    pub fn line_named(&self, word: &[u8]) -> Option<usize>
        ensures { result ≡ line_named (names self.now) word.now }
    {
        self.tables.line_named(word)
    }

    // The gate whose line has that number; an input has none.
    pub fn gate(&self, line: usize) -> Option<&Gate>
        ensures { option_map (λ g. gate_model g.now) result ≡ gate_at self.now line }
    {
        self.tables.gate(line)
    }

    // How many operands the gate of a line has; an input has none.
    pub fn operand_count(&self, line: usize) -> usize
        ensures { result ≡ operand_count self.now line }
    {
        self.gate(line).map_or(0, |gate| gate.operands.len())
    }

    // The gates, in the order of their lines.
    pub fn gates(&self) -> &[Gate]
        ensures value { map gate_model result.now ≡ self.now.gates }
        ensures rules { lawful self.now ≡ true }
    {
        &self.tables.gates
    }

    // The outputs' lines, in the order in which they were written.
    pub fn outputs(&self) -> &[usize]
        ensures value { result.now ≡ self.now.outputs }
        ensures rules { lawful self.now ≡ true }
    {
        &self.tables.outputs
    }
}
