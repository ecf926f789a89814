// The inside of a gate. `gate` and `operands` are mutually recursive, and each bracket that is opened leaves one less that
// may be.
ghost use Rattle.std.specs.Prelude.{◌≡◌, ℕ, ◌<◌, ◌≤◌, true, List, [], length, IfOk, OnOk, nat_le, MatchResult};
ghost use Rattle.refusals.specs.declared.cause.Refusal.TheVariants.{Text};
ghost use Rattle.refusals.specs.declared.layers.TextRefusal.TheVariants.{BracketsTooDeep};
ghost use Rattle.words.specs.Expected.{is_opening};
ghost use Rattle.words.specs.Lexemes.{Opening, lexeme};
ghost use Rattle.circuit.specs.Model.{line_count};
ghost use Rattle.reader.specs.Reading.{Pending, operator, operand, gate_made, gate_line_close, closing_step, resumed};
ghost use Rattle.reader.specs.Parsing.{ahead, so_far, at, Leads, InGates, Takes, AddsNone};
ghost use Rattle.reader.specs.Gates.{pending_of, going_on, Opens};

use crate::parser::Parser;
use crate::pending::{GatePart, PendingGate};
use circuit::{Gate, MOST_LINES, Op};
use refusals::{CircuitRefusal, Refusal, TextRefusal};
use words::{Token, expect_word};

// The most brackets that are open together.
const MOST_BRACKETS: usize = 8;

// A token where no more than `allowed` brackets may be opened.
fn within_brackets(token: Token<'_>, allowed: usize) -> Result<Token<'_>, Refusal>
    ensures { MatchResult result (λ t. (t ≡ token.entry) × (is_opening (lexeme token.entry) ≡ true → 0 < allowed)) (λ e. (allowed ≡ 0) × ((n : ℕ) × (lexeme token.entry ≡ Opening n) × (e ≡ Text (BracketsTooDeep n)))) }
{
    match token {
        Token::Opening { place } if allowed == 0 => {
            Err(TextRefusal::BracketsTooDeep { place }.into())
        }
        other => Ok(other),
    }
}

impl<'a> Parser<'a> {
    // Whether the circuit has as many lines as it may have.
    fn has_all_lines(&self) -> bool
        ensures { result ≡ nat_le 512 (line_count (so_far self.now)) }
    {
        self.tables.line_count() >= MOST_LINES
    }

    // The operator of a gate; `allowed` more brackets may be opened.
    fn operator(&mut self, allowed: usize) -> Result<Op, Refusal>
        ensures leads { InGates allowed (λ name pending. Leads (at (operator name pending) self.old) result (λ op. at (operand name (record { op = op; operands = [] }) pending) self.new)) }
        ensures fewer { AddsNone result self.old self.new }
    {
        let token = within_brackets(self.next(), allowed)?;
        let op = expect_word(token)?.named()?;
        Ok(op)
    }

    // What stands next inside the gate.
    fn gate_part(&mut self, gate: &PendingGate) -> Result<GatePart<'a>, Refusal>
        ensures leads { InGates gate.now.allowed (λ name pending. Leads (at (operand name (pending_of gate.now) pending) self.old) result (going_on name (pending_of gate.now) pending self.new)) }
        ensures opens { IfOk result (Opens gate.now.allowed) }
        ensures moves { Takes result self.old self.new }
    {
        match within_brackets(self.next(), gate.allowed)? {
            Token::Opening { place } => {
                gate.expect_room(place)?;
                Ok(GatePart::Opening {
                    allowed: gate.allowed - 1,
                })
            }
            Token::Closing { place } => Ok(GatePart::Closing { place }),
            token => {
                let word = expect_word(token)?;
                gate.expect_room(word.place)?;
                Ok(GatePart::Name { word })
            }
        }
    }

    // The gate is complete: it gets the next line number. (No `From` of a pending gate for it: that would stand for this one place, and
    // name the parts once more.)
    fn close_gate(&mut self, gate: PendingGate, place: usize) -> Result<usize, Refusal>
        ensures leads { (name : List ℕ) (pending : List Pending) → Leads (resumed (closing_step (operand name (pending_of gate) pending) (so_far self.old) place) (ahead self.old)) result (λ line. resumed (gate_made (so_far self.new) name line pending) (ahead self.new)) }
        ensures same { ahead self.new ≡ ahead self.old }
    {
        gate.expect_enough(place)?;
        if self.has_all_lines() {
            return Err(CircuitRefusal::LimitPassed { place }.into());
        }
        let line = self.tables.line_count();
        let PendingGate { op, operands, .. } = gate;
        self.tables.gates.push(Gate {
            name: None,
            op,
            operands,
        })?;
        Ok(line)
    }

    // The gate of a gate line. Two brackets are open: the line's and its own.
    pub fn line_gate(&mut self) -> Result<(), Refusal>
        ensures leads { (name : List ℕ) → Leads (at (operator name []) self.old) result (λ _. at (gate_line_close name) self.new) }
        ensures fewer { AddsNone result self.old self.new }
    {
        self.gate(MOST_BRACKETS - 2)?;
        Ok(())
    }

    // A gate, from its operator to its closing bracket: the number of its line.
    #[cycle(gate_operands)]
    fn gate(&mut self, allowed: usize) -> Result<usize, Refusal>
        ensures leads { InGates allowed (λ name pending. Leads (at (operator name pending) self.old) result (λ line. resumed (gate_made (so_far self.new) name line pending) (ahead self.new))) }
        ensures fewer { AddsNone result self.old self.new }
    {
        let op = self.operator(allowed)?;
        self.operands(PendingGate {
            op,
            operands: Vec::new(self.heap),
            allowed,
        })
    }

    // The further operands of a gate, to its closing bracket: the number of its line. (A loop and no chain: each operand begins
    // where the one before it ended.)
    #[cycle(gate_operands)]
    fn operands(&mut self, mut gate: PendingGate) -> Result<usize, Refusal>
        ensures leads { InGates gate.allowed (λ name pending. Leads (at (operand name (pending_of gate) pending) self.old) result (λ line. resumed (gate_made (so_far self.new) name line pending) (ahead self.new))) }
        ensures fewer { AddsNone result self.old self.new }
    {
        'operands: loop {
            let line = match self.gate_part(&gate)? {
                GatePart::Name { word } => self.line_of(word)?,
                GatePart::Opening { allowed } => self.gate(allowed)?,
                GatePart::Closing { place } => return self.close_gate(gate, place),
            };
            gate.operands.push(line)?;
        }
    }
}
