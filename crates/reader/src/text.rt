// A whole circuit text.
ghost use Rattle.std.specs.Prelude.{◌≡◌, ◌≤◌, length};
ghost use Rattle.reader.specs.Reading.{Granted, inputs_line, next_line, gate_name};
ghost use Rattle.reader.specs.Parsing.{ahead, so_far, at, Leads, Advances};

use crate::head::Head;
use crate::parser::Parser;
use refusals::Refusal;

impl Parser<'_> {
    // The inputs line, to its end.
    fn inputs_line(&mut self) -> Result<(), Refusal>
        ensures { Leads (at inputs_line self.old) result (λ _. at next_line self.new) }
    {
        self.line_begin()?;
        self.inputs_head()?;
        self.input_names()?;
        self.line_end()
    }

    // A gate line, after its head.
    fn gate_line(&mut self) -> Result<(), Refusal>
        ensures { Advances gate_name self.old result (λ _. next_line) self.new }
    {
        let name = self.gate_name()?;
        self.gate_begin()?;
        self.line_gate()?;
        self.gate_line_close(name)?;
        self.line_end()
    }

    // The whole circuit: the place where the rest of the text begins.
    pub fn circuit_text(&mut self) -> Result<usize, Refusal>
        ensures { Leads (at inputs_line self.old) result (λ place. Granted (so_far self.new) place) }
    {
        self.inputs_line()?;
        'lines: while let Head::Gate = self.next_line()? {
            self.gate_line()?;
        }
        self.output_names()?;
        self.outputs_end()
    }
}
