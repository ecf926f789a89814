// The lines of a circuit text, but for the inside of a gate.
ghost use Rattle.std.specs.Prelude.{◌≡◌, ℕ, ◌<◌, ◌≤◌, true, false, List, [], length, MatchResult, OnOk};
ghost use Rattle.refusals.specs.declared.cause.Refusal.TheVariants.{Circuit as CircuitCause};
ghost use Rattle.refusals.specs.declared.layers.CircuitRefusal.TheVariants.{EndsEarly};
ghost use Rattle.words.specs.Lexemes.{TextEnd, lexeme, is_end};
ghost use Rattle.reader.specs.Reading.{Granted, inputs_line, inputs_head, input_name, line_end, next_line, next_head, gate_name, gate_begin, operator, gate_line_close, output_name, outputs_end, word_step, resumed};
ghost use Rattle.reader.specs.Parsing.{ahead, so_far, at, Leads, Advances, after_head, listed, Takes};

use crate::head::{Head, INPUTS, wrong_head};
use crate::parser::Parser;
use circuit::{MOST_INPUTS, MOST_OUTPUTS, Name};
use refusals::{CircuitRefusal, FormRefusal, Refusal};
use words::{Mark, PlacedWord, Token, expect_mark, expect_word};

// A token of a circuit of which more must come: the text may not end here.
fn before_end(token: Token<'_>) -> Result<Token<'_>, Refusal>
    ensures { MatchResult result (λ t. (t ≡ token.entry) × (is_end (lexeme token.entry) ≡ false)) (λ e. (n : ℕ) × (lexeme token.entry ≡ TextEnd n) × (e ≡ CircuitCause (EndsEarly n))) }
{
    match token {
        Token::TextEnd { place } => Err(CircuitRefusal::EndsEarly { place }.into()),
        other => Ok(other),
    }
}

impl<'a> Parser<'a> {
    // The opening bracket of a line. (It and the end of a line share `before_end` and `expect_mark`; what is left differs in the mark
    // and in each clause.)
    pub fn line_begin(&mut self) -> Result<(), Refusal>
        ensures first { Leads (at inputs_line self.old) result (λ _. at inputs_head self.new) }
        ensures further { Leads (at next_line self.old) result (λ _. at next_head self.new) }
        ensures moves { Takes result self.old self.new }
    {
        let token = before_end(self.next())?;
        expect_mark(token, Mark::Opening)?;
        Ok(())
    }

    // The end of an inputs line or a gate line, after which a line should begin.
    pub fn line_end(&mut self) -> Result<(), Refusal>
        ensures { Advances line_end self.old result (λ _. next_line) self.new }
    {
        let token = before_end(self.next())?;
        expect_mark(token, Mark::LineEnd)?;
        Ok(())
    }

    // The head of the inputs line.
    pub fn inputs_head(&mut self) -> Result<(), Refusal>
        ensures { Leads (at inputs_head self.old) result (λ _. at input_name self.new) }
    {
        let word = expect_word(self.next())?;
        if word.bytes == INPUTS {
            Ok(())
        } else {
            Err(wrong_head(word).into())
        }
    }

    // The next name of a list that has so many, or nothing at its closing bracket, which may not close an empty list.
    fn listed_name(&mut self, count: usize) -> Result<Option<PlacedWord<'a>>, Refusal>
        ensures inputs { count ≡ length (so_far self.old).inputs → Leads (at input_name self.old) result (listed input_name line_end self.new) }
        ensures outputs { count ≡ length (so_far self.old).outputs → Leads (at output_name self.old) result (listed output_name outputs_end self.new) }
        ensures moves { Takes result self.old self.new }
    {
        match self.next() {
            Token::Closing { place } if count == 0 => Err(FormRefusal::Misplaced { place }.into()),
            Token::Closing { .. } => Ok(None),
            token => Ok(Some(expect_word(token)?)),
        }
    }

    // The next name of the inputs line, or nothing at its closing bracket. (Inputs and outputs have functions of their own round
    // `listed_name`: each list grows by another rule, and the definition goes on elsewhere after it.)
    fn next_input(&mut self) -> Result<Option<PlacedWord<'a>>, Refusal>
        ensures leads { Leads (at input_name self.old) result (listed input_name line_end self.new) }
        ensures moves { Takes result self.old self.new }
    {
        let count = self.tables.inputs.len();
        self.listed_name(count)
    }

    // The next name of the outputs line, or nothing at its closing bracket.
    fn next_output(&mut self) -> Result<Option<PlacedWord<'a>>, Refusal>
        ensures leads { Leads (at output_name self.old) result (listed output_name outputs_end self.new) }
        ensures moves { Takes result self.old self.new }
    {
        let count = self.tables.outputs.len();
        self.listed_name(count)
    }

    // One name of an inputs line. (No method of the tables, nor are the next output and the closing of a gate: each refusal has the
    // place of its word, of which tables know nothing. That no lexeme is taken is a clause of three functions; a word for it would be
    // no shorter.)
    fn input_name(&mut self, word: PlacedWord<'_>) -> Result<(), Refusal>
        ensures leads { Leads (resumed (word_step input_name (so_far self.old) word.entry.bytes.now word.entry.place) (ahead self.old)) result (λ _. at input_name self.new) }
        ensures same { ahead self.new ≡ ahead self.old }
    {
        let word = self.new_name(word)?;
        if self.tables.inputs.len() >= MOST_INPUTS {
            let place = word.place;
            return Err(CircuitRefusal::LimitPassed { place }.into());
        }
        let name = Name::from_word(self.heap, word)?;
        self.tables.inputs.push(name)?;
        Ok(())
    }

    // The names of an inputs line, to its closing bracket.
    pub fn input_names(&mut self) -> Result<(), Refusal>
        ensures { Leads (at input_name self.old) result (λ _. at line_end self.new) }
    {
        'names: while let Some(word) = self.next_input()? {
            self.input_name(word)?;
        }
        Ok(())
    }

    // The head of a line after the inputs line.
    fn next_head(&mut self) -> Result<Head, Refusal>
        ensures { Advances next_head self.old result after_head self.new }
    {
        let head = expect_word(self.next())?.try_into()?;
        Ok(head)
    }

    // The begin of a line after the inputs line, to its head.
    pub fn next_line(&mut self) -> Result<Head, Refusal>
        ensures leads { Leads (at next_line self.old) result (λ h. at (after_head h) self.new) }
        ensures moves { Takes result self.old self.new }
    {
        self.line_begin()?;
        self.next_head()
    }

    // The name of a gate line.
    pub fn gate_name(&mut self) -> Result<Name, Refusal>
        ensures { Advances gate_name self.old result (λ n. gate_begin n) self.new }
    {
        let word = expect_word(self.next())?;
        let word = self.new_name(word)?;
        Ok(Name::from_word(self.heap, word)?)
    }

    // The opening bracket of a line's gate.
    pub fn gate_begin(&mut self) -> Result<(), Refusal>
        ensures { (name : List ℕ) → Advances (gate_begin name) self.old result (λ _. operator name []) self.new }
    {
        expect_mark(self.next(), Mark::Opening)?;
        Ok(())
    }

    // The closing bracket of a gate line: the line's gate, which is the last, gets the name.
    #[tactic(auto, using(crate::proofs::Steps::stepped, crate::proofs::Steps::gate_renamed))]
    pub fn gate_line_close(&mut self, name: Name) -> Result<(), Refusal>
        ensures { Advances (gate_line_close name) self.old result (λ _. line_end) self.new }
    {
        expect_mark(self.next(), Mark::Closing)?;
        if let Some(gate) = self.tables.gates.last_mut() {
            gate.name = Some(name);
        }
        Ok(())
    }

    // One name of an outputs line: the line that it lists.
    fn output_name(&mut self, word: PlacedWord<'_>) -> Result<(), Refusal>
        ensures leads { Leads (resumed (word_step output_name (so_far self.old) word.entry.bytes.now word.entry.place) (ahead self.old)) result (λ _. at output_name self.new) }
        ensures same { ahead self.new ≡ ahead self.old }
    {
        let line = self.line_of(word)?;
        let place = word.place;
        if self.tables.has_output(line) {
            return Err(CircuitRefusal::NameTaken { place }.into());
        }
        if self.tables.outputs.len() >= MOST_OUTPUTS {
            return Err(CircuitRefusal::LimitPassed { place }.into());
        }
        self.tables.outputs.push(line)?;
        Ok(())
    }

    // The names of an outputs line, to its closing bracket.
    pub fn output_names(&mut self) -> Result<(), Refusal>
        ensures { Leads (at output_name self.old) result (λ _. at outputs_end self.new) }
    {
        'names: while let Some(word) = self.next_output()? {
            self.output_name(word)?;
        }
        Ok(())
    }

    // The end of the outputs line, and of the circuit: the place where the rest of the text begins.
    pub fn outputs_end(&mut self) -> Result<usize, Refusal>
        ensures { Leads (at outputs_end self.old) result (λ place. Granted (so_far self.new) place) }
    {
        self.lexer.line_end()
    }
}
