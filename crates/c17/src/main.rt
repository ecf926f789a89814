// The ISCAS-85 circuit C17 under the simulator and the visit. For every fault on its lines and pins: which of the 32 vectors detect
// it, in the kind nine. Then the verdicts of the three kinds on some cubes. Then, for every fault, how many inputs the fewest cube
// drives, in the kind seven. The expected output comes from another simulator and from a solver (docs/C17.md).
#![tactic(auto)]

use anyhow::Context;
use circuit::{Circuit, Name};
use faults::{Cube, Fault, StuckAt};
use reader::read;
use refusals::FolderRefusal;
use simulator::{Socket, Verdict, simulate_fault};
use std::alloc::Global;
use std::io;
use values::five::Five;
use values::kind::ValueKind;
use values::nine::Nine;
use values::seven::Seven;
use visit::{Answer, visit};

const C17: &[u8] = b"(inputs n1 n2 n3 n6 n7)
(gate n10 (nand n1 n3))
(gate n11 (nand n3 n6))
(gate n16 (nand n2 n11))
(gate n19 (nand n11 n7))
(gate n22 (nand n10 n16))
(gate n23 (nand n16 n19))
(outputs n22 n23)
";

const INPUTS: u64 = 5;

const LINES: usize = 11;

// More tries than a visit of C17 can make: it has 3 ^ 5 cubes.
const BUDGET: usize = 1000;

// A fault by the name of its line, its pin and its level. (A row of a table: fields with names would make five lines of it.)
#[derive(Clone, Copy)]
struct NamedFault(&'static str, usize, usize);

const CUBE_FAULTS: [NamedFault; 8] = [
    NamedFault("n1", 0, 1),
    NamedFault("n3", 0, 0),
    NamedFault("n3", 0, 1),
    NamedFault("n6", 0, 1),
    NamedFault("n11", 0, 0),
    NamedFault("n16", 2, 0),
    NamedFault("n19", 1, 1),
    NamedFault("n22", 0, 0),
];

const CUBES: [&str; 13] = [
    "xxxxx", "0xxxx", "1x1xx", "x1x0x", "0101x", "x1100", "11111", "xx111", "x111x", "xx011",
    "x101x", "xx101", "0x011",
];

// The cube that is written so, an input a letter.
fn cube_of(letters: &str) -> Cube {
    letters
        .bytes()
        .enumerate()
        .filter(|&(_, letter)| letter != b'x')
        .fold(Cube::nothing(), |cube, (input, letter)| {
            cube.driving(input, letter == b'1')
        })
}

// The verdict of a kind on a fault under a cube, worked out in a row of the kind's values.
fn verdict<V: ValueKind>(
    circuit: &Circuit,
    fault: Fault,
    cube: Cube,
    row: &mut [V],
) -> Result<Verdict, FolderRefusal> {
    simulate_fault(circuit, cube, fault, &mut Socket::new(), row)
}

// A fault, with the name of its line and the numbers that it was asked for by.
#[derive(Clone, Copy)]
struct LineFault<'a> {
    name: &'a Name,
    asked: StuckAt,
    fault: Fault,
}

// The faults of the circuit: line by line, its pins in order, stuck at 0 and then at 1.
fn all_faults(heap: Global, circuit: &Circuit) -> anyhow::Result<Vec<LineFault<'_>>> {
    let mut faults = Vec::new(heap);
    for line in 0..circuit.line_count() {
        let name = circuit.line_name(line).context("a line without a name")?;
        for pin in 0..=circuit.operand_count(line) {
            for level in 0..2 {
                let asked = StuckAt { line, pin, level };
                let fault = Fault::new(circuit, asked)?;
                faults.push(LineFault { name, asked, fault })?;
            }
        }
    }
    Ok(faults)
}

// One digit for each vector: 1 if it detects the fault.
fn print_vectors(rt: &impl Print, circuit: &Circuit, of: LineFault<'_>) -> anyhow::Result<()> {
    let LineFault { name, asked, fault } = of;
    print!(rt; "{name} {} {} ", asked.pin, asked.level)?;
    for vector in 0..(1u64 << INPUTS) {
        let cube = Cube::new((1 << INPUTS) - 1, vector)?;
        let verdict = verdict(circuit, fault, cube, &mut [Nine::unknown(); LINES])?;
        let digit = match verdict {
            Verdict::Shows => '1',
            Verdict::Still => '0',
            Verdict::Unsure => '?',
        };
        print!(rt; "{digit}")?;
    }
    println!(rt; "")?;
    Ok(())
}

// How many inputs the fewest cube drives that the kind seven shows to detect the fault.
fn print_fewest(rt: &impl Print, circuit: &Circuit, of: LineFault<'_>) -> anyhow::Result<()> {
    let LineFault { name, asked, fault } = of;
    let row = &mut [Seven::unknown(); LINES];
    match visit(circuit, fault, BUDGET, &mut Socket::new(), row)? {
        Answer::Fewest { cube, .. } => {
            let driven = cube.driven().count_ones();
            println!(rt; "{name} {} {} {driven}", asked.pin, asked.level)?;
        }
        Answer::Redundant { .. } | Answer::Spent { .. } => {
            println!(rt; "{name} {} {} none", asked.pin, asked.level)?;
        }
    }
    Ok(())
}

// The verdict of a kind on a fault under a cube, behind a space.
fn print_verdict<V: ValueKind>(
    rt: &impl Print,
    circuit: &Circuit,
    fault: Fault,
    cube: Cube,
    row: &mut [V],
) -> io::Result<()> {
    match verdict(circuit, fault, cube, row) {
        Ok(verdict) => print!(rt; " {verdict}"),
        Err(_) => print!(rt; " refused"),
    }
}

// The verdicts of the three kinds on each cube.
fn print_cubes(rt: &impl Print, circuit: &Circuit, named: NamedFault) -> anyhow::Result<()> {
    let NamedFault(name, pin, level) = named;
    let line = circuit.line_named(name.as_bytes()).context("no such line")?;
    let fault = Fault::new(circuit, StuckAt { line, pin, level })?;
    for letters in &CUBES {
        let cube = cube_of(letters);
        print!(rt; "{name} {pin} {level} {letters}")?;
        print_verdict(rt, circuit, fault, cube, &mut [Five::unknown(); LINES])?;
        print_verdict(rt, circuit, fault, cube, &mut [Seven::unknown(); LINES])?;
        print_verdict(rt, circuit, fault, cube, &mut [Nine::unknown(); LINES])?;
        println!(rt; "")?;
    }
    Ok(())
}

fn main(rt: HostRuntime) -> anyhow::Result<()> {
    let heap = rt.alloc();
    let mut circuit = Circuit::blank(heap)?;
    let _ = read(heap, C17, &mut circuit)?;
    let faults = all_faults(heap, &circuit)?;
    for fault in &faults {
        print_vectors(&rt, &circuit, *fault)?;
    }
    for named in CUBE_FAULTS {
        print_cubes(&rt, &circuit, named)?;
    }
    for fault in &faults {
        print_fewest(&rt, &circuit, *fault)?;
    }
    Ok(())
}
