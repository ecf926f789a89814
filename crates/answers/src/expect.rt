// One text and its answer. (The leave to fail a test and the heap stay two parameters: what only builds a text is given no leave to fail.)
use circuit::Circuit;
use faults::StuckAt;
use reader::read;
use refusals::{Cause, Layer, Refusal};
use std::alloc::{AllocError, Global};
use std::fmt::Write;
use std::process::Abort;
use std::test::Fail;
use std::{fmt, str};

// A text that is refused, the number and the place. (Fields with names would make six lines of each row of the tables, and so would a
// struct of number and place.)
#[derive(Clone, Copy)]
pub struct Refused(pub &'static str, pub u8, pub usize);

// How large a circuit is.
#[derive(Clone, Copy, Debug, PartialEq, Eq)]
pub struct Size {
    pub inputs: usize,
    pub lines: usize,
    pub outputs: usize,
}

// How large this circuit is.
fn size_of(circuit: &Circuit) -> Size {
    Size {
        inputs: circuit.input_count(),
        lines: circuit.line_count(),
        outputs: circuit.outputs().len(),
    }
}

// The circuit of a text that is granted.
pub fn circuit_of(heap: Global, text: &str) -> Result<Circuit, Refusal> {
    let mut circuit = Circuit::blank(heap)?;
    let _ = read(heap, text.as_bytes(), &mut circuit)?;
    Ok(circuit)
}

// A circuit with two inputs, a gate and two outputs: what is read next has something to replace.
fn other_circuit(heap: Global) -> Result<Circuit, Refusal> {
    circuit_of(heap, "(inputs p q)\n(gate r (and p q))\n(outputs r q)\n")
}

// One input and the gates g0, g1 and so on, of one line each.
pub fn with_gates(heap: Global, count: usize) -> Result<String, AllocError> {
    let mut text = String::from_str(heap, "(inputs a)\n")?;
    for k in 0..count {
        writeln!(text, "(gate g{k} (not a))")?;
    }
    Ok(text)
}

// The fault of that line and pin, stuck at that level.
pub fn stuck_at(line: usize, pin: usize, level: usize) -> StuckAt {
    StuckAt { line, pin, level }
}

// The layer that a refusal of that number is of.
fn layer_of(number: u8) -> Layer {
    match number {
        1..=3 => Layer::Text,
        4..=6 => Layer::Form,
        7..=10 => Layer::Circuit,
        _ => Layer::Folder,
    }
}

// What a message shows of a text: how it begins and how it ends, and the first bytes as numbers.
#[derive(Clone, Copy)]
struct Shown<'a>(&'a [u8]);

impl fmt::Display for Shown<'_> {
    fn fmt<W: fmt::Write>(&self, f: &mut fmt::Formatter<W>) -> fmt::Result {
        let Shown(text) = *self;
        let start = as_text(&text[..text.len().min(60)]);
        let end = as_text(&text[text.len().saturating_sub(60)..]);
        let bytes = &text[..text.len().min(12)];
        write!(f, "{start} .. {end} {bytes:?}")
    }
}

fn as_text(bytes: &[u8]) -> &str {
    str::from_utf8(bytes).unwrap_or("bytes that are no text")
}

pub fn expect_blank(rt: &impl Abort, circuit: &Circuit, text: &[u8]) {
    let blank = Size {
        inputs: 1,
        lines: 1,
        outputs: 1,
    };
    let text = Shown(text);
    assert_eq!(rt; size_of(circuit), blank, "{text}");
    assert_eq!(rt; circuit.line_named(b"a"), Some(0), "{text}");
    assert_eq!(rt; circuit.outputs(), [0].as_slice(), "{text}");
}

// The text is refused by that number at that place, and leaves the blank circuit.
pub fn expect_refused(
    rt: &impl Abort,
    heap: Global,
    text: &[u8],
    number: u8,
    place: usize,
) -> Result<(), Fail> {
    let mut circuit = other_circuit(heap)?;
    let shown = Shown(text);
    let Err(refusal) = read(heap, text, &mut circuit) else {
        panic!(rt; "granted: {shown}")
    };
    let cause = Cause {
        layer: layer_of(number),
        number,
        place,
    };
    assert_eq!(rt; refusal.cause(), Some(cause), "{shown}");
    expect_blank(rt, &circuit, text);
    Ok(())
}

// Texts with the same front: what follows it, the number and the place in the whole text.
pub fn expect_all_refused(
    rt: &impl Abort,
    heap: Global,
    front: &str,
    endings: &[Refused],
) -> Result<(), Fail> {
    for Refused(ending, number, place) in endings {
        let text = format!(in heap; "{front}{ending}")?;
        expect_refused(rt, heap, text.as_bytes(), *number, *place)?;
    }
    Ok(())
}

// The text is granted, with a circuit of that size, and the rest begins at that place and is what stands there.
pub fn expect_granted(
    rt: &impl Abort,
    heap: Global,
    text: &[u8],
    size: Size,
    place: usize,
) -> Result<(), Fail> {
    let mut circuit = other_circuit(heap)?;
    let shown = Shown(text);
    let Ok(rest) = read(heap, text, &mut circuit) else {
        panic!(rt; "refused: {shown}")
    };
    assert_eq!(rt; rest.place, place, "{shown}");
    assert_eq!(rt; Some(rest.bytes), text.get(place..), "{shown}");
    assert_eq!(rt; size_of(&circuit), size, "{shown}");
    Ok(())
}
