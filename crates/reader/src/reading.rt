// Reading a circuit, for callers.
ghost use Rattle.std.specs.Prelude.{◌≡◌, length, MatchResult, nat_lt};
ghost use Rattle.circuit.specs.Tables.{tables_model};
ghost use Rattle.reader.specs.Describes.{ReadsWhatIsDescribed, OneCircuit};
ghost use Rattle.reader.specs.Parsing.{Refuses};
ghost use Rattle.reader.specs.Promises.{Reads, Follows};
ghost use Rattle.reader.specs.Reading.{Granted, reading};

use crate::parser::Parser;
use crate::rest::Rest;
use circuit::{Circuit, Tables};
use refusals::{CircuitRefusal, Refusal};
use std::alloc::Global;

// The most bytes of a text.
const LONGEST_TEXT: usize = 65_536;

// Whether a text has more bytes than that.
fn is_too_long(text: &[u8]) -> bool
    ensures { result ≡ nat_lt 65536 (length text.now) }
{
    text.len() > LONGEST_TEXT
}

// The tables of the circuit at the front of a text, and the place where the rest of the text begins.
fn read_tables(heap: Global, text: &[u8]) -> Result<(Tables, usize), Refusal>
    ensures { MatchResult result (λ r. reading text.now ≡ Granted (tables_model r.0) r.1) (Refuses (reading text.now)) }
{
    if is_too_long(text) {
        let place = LONGEST_TEXT;
        return Err(CircuitRefusal::LimitPassed { place }.into());
    }
    let mut parser = Parser::new(heap, text);
    let place = parser.circuit_text()?;
    Ok((parser.tables, place))
}

// Reads as the definition does. What `read` promises besides follows from that.
#[tactic(auto, using(crate::proofs::Lawful::granted_lawful, crate::proofs::Lawful::reading_short))]
fn read_text<'a>(heap: Global, text: &'a [u8], circuit: &mut Circuit) -> Result<Rest<'a>, Refusal>
    ensures { Reads text.now result circuit.new }
{
    circuit.clear();
    let (tables, place) = read_tables(heap, text)?;
    *circuit = Circuit::new(tables).unwrap();
    let bytes = &text[place..];
    Ok(Rest { bytes, place })
}

// Reads the circuit at the front of a text into the caller's circuit, and hands back the rest of the text. A text that is
// refused leaves the blank circuit.
#[tactic(auto, using(crate::proofs::Promised::follows))]
pub fn read<'a>(heap: Global, text: &'a [u8], circuit: &mut Circuit) -> Result<Rest<'a>, Refusal>
    ensures reads { Reads text.now result circuit.new }
    ensures follows { Follows text.now result circuit.new }
    ensures exact { ReadsWhatIsDescribed }
    ensures unique { OneCircuit }
{
    read_text(heap, text, circuit)
}
