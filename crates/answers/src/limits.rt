// Both sides of each limit.
use crate::expect::{
    Refused, Size, circuit_of, expect_all_refused, expect_granted, expect_refused, with_gates,
};
use circuit::Circuit;
use std::alloc::Global;
use std::fmt::Write;
use std::ops::Range;
use std::process::Abort;
use std::test::Fail;

// An operator, and how many operands it takes at least and at most. (A row of a table, as `Refused`.)
#[derive(Clone, Copy)]
struct Takes(&'static str, usize, usize);

const OPERATORS: [Takes; 8] = [
    Takes("and", 2, 8),
    Takes("nand", 2, 8),
    Takes("or", 2, 8),
    Takes("nor", 2, 8),
    Takes("xor", 2, 8),
    Takes("xnor", 2, 8),
    Takes("not", 1, 1),
    Takes("buf", 1, 1),
];

// A gate with that many operands: too few are refused at its closing bracket, too many at the first that is too many.
fn expect_count(rt: &impl Abort, heap: Global, operator: Takes, count: usize) -> Result<(), Fail> {
    let Takes(word, fewest, most) = operator;
    let mut text = format!(in heap; "(inputs a)\n(gate y ({word}")?;
    text.push_str(&" a".repeat(heap, count.min(most))?)?;
    let one_too_many = text.len() + 1;
    text.push_str(&" a".repeat(heap, count.saturating_sub(most))?)?;
    let closing = text.len();
    text.push_str("))\n(outputs y)\n")?;
    if count < fewest {
        expect_refused(rt, heap, text.as_bytes(), 6, closing)
    } else if count > most {
        expect_refused(rt, heap, text.as_bytes(), 6, one_too_many)
    } else {
        let size = Size {
            inputs: 1,
            lines: 2,
            outputs: 1,
        };
        expect_granted(rt, heap, text.as_bytes(), size, text.len())
    }
}

#[test]
fn operands_of_each_operator(rt: HostRuntime) -> Result<(), Fail> {
    let heap = rt.alloc();
    for operator in OPERATORS {
        for count in 0..11 {
            expect_count(&rt, heap, operator, count)?;
        }
    }
    Ok(())
}

fn expect_ending_granted(
    rt: &impl Abort,
    heap: Global,
    front: &str,
    ending: &str,
    size: Size,
    place: usize,
) -> Result<(), Fail> {
    let text = format!(in heap; "{front}{ending}")?;
    expect_granted(rt, heap, text.as_bytes(), size, place)
}

// The names n0 to n63, each behind a space: ten of 3 bytes with the space and 54 of 4, so 246 bytes.
fn push_names(text: &mut String) -> Result<(), Fail> {
    for k in 0..64 {
        write!(text, " n{k}")?;
    }
    Ok(())
}

// Behind 64 inputs, at byte 253.
const AFTER_INPUTS: [Refused; 8] = [
    Refused(" n64)\n(outputs n0)\n", 9, 254),
    Refused(" a", 9, 254),
    Refused(" n0)\n", 8, 254),
    Refused(" n63)\n", 8, 254),
    Refused(" 64)\n", 2, 254),
    Refused(" abcdefghi)\n", 2, 254),
    Refused(" ?)\n", 1, 254),
    Refused(" (n64)\n", 4, 254),
];

#[test]
fn sixty_four_inputs(rt: HostRuntime) -> Result<(), Fail> {
    let heap = rt.alloc();
    let mut front = String::from_str(heap, "(inputs")?;
    push_names(&mut front)?;
    assert_eq!(rt; front.len(), 253);
    expect_all_refused(&rt, heap, front.as_str(), &AFTER_INPUTS)?;
    let size = Size {
        inputs: 64,
        lines: 64,
        outputs: 1,
    };
    expect_ending_granted(&rt, heap, front.as_str(), ")\n(outputs n63)\n", size, 269)
}

// Behind 64 outputs, at byte 527: there are 64 inputs and the gate g.
const AFTER_OUTPUTS: [Refused; 9] = [
    Refused(" g)\n", 9, 528),
    Refused(" g", 9, 528),
    Refused(" n0)\n", 8, 528),
    Refused(" n63)\n", 8, 528),
    Refused(" n64)\n", 7, 528),
    Refused(" 64)\n", 2, 528),
    Refused(" abcdefghi)\n", 2, 528),
    Refused(" ?)\n", 1, 528),
    Refused(" (g)\n", 4, 528),
];

#[test]
fn sixty_four_outputs(rt: HostRuntime) -> Result<(), Fail> {
    let heap = rt.alloc();
    let mut front = String::from_str(heap, "(inputs")?;
    push_names(&mut front)?;
    front.push_str(")\n(gate g (not n0))\n(outputs")?;
    push_names(&mut front)?;
    assert_eq!(rt; front.len(), 527);
    expect_all_refused(&rt, heap, front.as_str(), &AFTER_OUTPUTS)?;
    let size = Size {
        inputs: 64,
        lines: 65,
        outputs: 64,
    };
    expect_ending_granted(&rt, heap, front.as_str(), ")\n(list)\n", size, 529)?;
    expect_ending_granted(&rt, heap, front.as_str(), ")", size, 528)
}

// Behind 511 lines, at byte 10,101.
const AFTER_511_LINES: [Refused; 4] = [
    Refused("(gate y (not (not a)))\n(outputs y)\n", 9, 10121),
    Refused("(gate y (and (not a)))\n(outputs y)\n", 6, 10121),
    Refused("(gate y (and (not a) (not a)))\n(outputs y)\n", 9, 10128),
    Refused("(gate y (and (not a) (not y)))\n(outputs y)\n", 7, 10127),
];

// Behind 512 lines, at byte 10,121.
const AFTER_512_LINES: [Refused; 8] = [
    Refused("(gate y (not a))\n(outputs y)\n", 9, 10135),
    Refused("(gate y (and a (not a)))\n(outputs y)\n", 9, 10142),
    Refused("(gate y (and a))\n(outputs y)\n", 6, 10135),
    Refused("(gate y (not a a))\n(outputs y)\n", 6, 10136),
    Refused("(gate y (not b))\n(outputs y)\n", 7, 10134),
    Refused("(gate g0 (not a))\n(outputs y)\n", 8, 10127),
    Refused("(gate y (nxor a a))\n(outputs y)\n", 5, 10130),
    Refused("(gate y (not a\n(outputs y)\n", 4, 10135),
];

#[test]
fn five_hundred_and_twelve_lines(rt: HostRuntime) -> Result<(), Fail> {
    let heap = rt.alloc();
    let size = Size {
        inputs: 1,
        lines: 512,
        outputs: 1,
    };
    let front = with_gates(heap, 510)?;
    assert_eq!(rt; front.len(), 10101);
    expect_all_refused(&rt, heap, front.as_str(), &AFTER_511_LINES)?;
    expect_ending_granted(
        &rt,
        heap,
        front.as_str(),
        "(gate y (not a))\n(outputs y)\n",
        size,
        10130,
    )?;
    let front = with_gates(heap, 511)?;
    assert_eq!(rt; front.len(), 10121);
    expect_all_refused(&rt, heap, front.as_str(), &AFTER_512_LINES)?;
    expect_ending_granted(&rt, heap, front.as_str(), "(outputs g510)\n", size, 10136)
}

// A front, one character, the length to which the front is filled up with it, the number and the place. (A row of a table,
// as `Refused`.)
#[derive(Clone, Copy)]
struct Filled(&'static str, &'static str, usize, u8, usize);

const FILLED: [Filled; 15] = [
    Filled("", " ", 65536, 10, 65536),
    Filled("", " ", 65537, 9, 65536),
    Filled("", "\n", 65537, 9, 65536),
    Filled("", "?", 65536, 1, 0),
    Filled("", "?", 65537, 9, 65536),
    Filled("", "a", 65536, 2, 0),
    Filled("", "a", 65537, 9, 65536),
    Filled("", "(", 65536, 4, 1),
    Filled("(inputs a)", " ", 65536, 10, 65536),
    Filled("(inputs a)", " ", 65537, 9, 65536),
    Filled("(inputs a", " ", 65536, 4, 65536),
    Filled("(inputs a", " ", 65537, 9, 65536),
    Filled("(inputs a)\n(outputs a)", " ", 65537, 9, 65536),
    Filled("(inputs a)\n(outputs a)\n", "?", 65537, 9, 65536),
    Filled("(inputs a)\n(outputs a)\n", "\n", 70000, 9, 65536),
];

// The text, filled up to that many bytes.
fn fill(
    rt: &impl Abort,
    heap: Global,
    text: &mut String,
    filler: &str,
    length: usize,
) -> Result<(), Fail> {
    let missing = length.saturating_sub(text.len());
    text.push_str(&filler.repeat(heap, missing)?)?;
    assert_eq!(rt; text.len(), length);
    Ok(())
}

#[test]
fn long_texts(rt: HostRuntime) -> Result<(), Fail> {
    let heap = rt.alloc();
    for case in &FILLED {
        let Filled(front, filler, length, number, place) = *case;
        let mut text = String::from_str(heap, front)?;
        fill(&rt, heap, &mut text, filler, length)?;
        expect_refused(&rt, heap, text.as_bytes(), number, place)?;
    }
    let size = Size {
        inputs: 1,
        lines: 1,
        outputs: 1,
    };
    let mut text = String::from_str(heap, "(inputs a)\n(outputs a)\n")?;
    fill(&rt, heap, &mut text, "?", 65536)?;
    expect_granted(&rt, heap, text.as_bytes(), size, 23)
}

// Names of 8 bytes for these lines, each behind a space: n0000000, n0000001 and so on.
fn push_lines(text: &mut String, lines: Range<usize>) -> Result<(), Fail> {
    for line in lines {
        write!(text, " n{line:07}")?;
    }
    Ok(())
}

// The largest circuit: 64 inputs, 448 gates that read the eight lines before them, and the last 64 lines as outputs.
fn largest(heap: Global) -> Result<String, Fail> {
    let mut text = String::from_str(heap, "(inputs")?;
    push_lines(&mut text, 0..64)?;
    writeln!(text, ")")?;
    for line in 64..512usize {
        write!(text, "(gate n{line:07} (xor")?;
        push_lines(&mut text, line - 8..line)?;
        writeln!(text, "))")?;
    }
    write!(text, "(outputs")?;
    push_lines(&mut text, 448..512)?;
    write!(text, ")")?;
    Ok(text)
}

fn expect_largest(rt: &impl Abort, circuit: &Circuit) -> Result<(), Fail> {
    assert_eq!(rt; circuit.line_named(b"n0000511"), Some(511));
    let gate = circuit.gate(511).ok_or("no gate")?;
    let operands = [503, 504, 505, 506, 507, 508, 509, 510];
    assert_eq!(rt; gate.operands.as_slice(), operands.as_slice());
    assert!(rt; circuit.outputs().iter().copied().eq(448..512));
    Ok(())
}

// The largest circuit in the longest text, and one byte more.
#[test]
fn largest_circuit(rt: HostRuntime) -> Result<(), Fail> {
    let heap = rt.alloc();
    let mut text = largest(heap)?;
    // an inputs line of 585 bytes, 448 gate lines of 94 and an outputs line of 585 without a line feed
    let size = Size {
        inputs: 64,
        lines: 512,
        outputs: 64,
    };
    expect_granted(&rt, heap, text.as_bytes(), size, 43282)?;
    fill(&rt, heap, &mut text, " ", 65536)?;
    expect_granted(&rt, heap, text.as_bytes(), size, 65536)?;
    expect_largest(&rt, &circuit_of(heap, text.as_str())?)?;
    text.push_str(" ")?;
    expect_refused(&rt, heap, text.as_bytes(), 9, 65536)
}
