// The line of an entry in a listing.
ghost use Rattle.std.specs.Prelude.{Some};
ghost use Rattle.std.specs.Option.{option_map};
ghost use Rattle.replies.specs.Lines.{name_text, entry_line};

use crate::state_text::StateText;
use circuit::{Circuit, Name};
use folder::Entry;
use std::fmt;
use std::fmt::Display;

// The name of a line, or `none`. (No wrapper for any value that may be missing: a cube would still need one for its letters.)
#[derive(Clone, Copy)]
pub struct NameText<'a> {
    pub name: Option<&'a Name>,
}

impl fmt::Display for NameText<'_> {
    ghost output = { λ t. Some (name_text (option_map (λ n. n.now) t.name)) };

    fn fmt<W: fmt::Write>(&self, f: &mut fmt::Formatter<W>) -> fmt::Result {
        match self.name {
            None => f.write_str("none"),
            Some(name) => name.fmt(f),
        }
    }
}

// An entry of a circuit's folder, under its number.
#[derive(Clone, Copy)]
pub struct EntryLine<'a> {
    pub circuit: &'a Circuit,
    pub number: usize,
    pub entry: Entry,
}

impl fmt::Display for EntryLine<'_> {
    ghost output = { λ t. Some (entry_line t.circuit.now t.number t.entry) };

    fn fmt<W: fmt::Write>(&self, f: &mut fmt::Formatter<W>) -> fmt::Result {
        let fault = self.entry.fault();
        let number = self.number;
        let name = NameText {
            name: self.circuit.line_name(fault.line()),
        };
        let pin = fault.pin();
        let level = u8::from(fault.level());
        let state = StateText {
            state: self.entry.state(),
            inputs: self.circuit.input_count(),
        };
        writeln!(f, "(entry {number} {name} {pin} {level} {state})")
    }
}
