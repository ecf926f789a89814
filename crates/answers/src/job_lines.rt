// Job lines with the replies to them: searches, covers, and what is refused.
use session::{Answer, Opening, open};
use std::alloc::Global;
use std::fmt::Write;
use std::process::Abort;
use std::test::Fail;

const SELECTED: &str = "(inputs a s)\n(gate y (or (and s a) s))\n(outputs y)\n";

const MULTIPLEXER: &str = "(inputs a b s)\n(gate y (or (and a (not s)) (and b s)))\n(outputs y)\n";

const ABSORBED: &str = "(inputs a b)\n(gate p (and a b))\n(gate y (or a p))\n(outputs y)\n";

// A job line, and its reply. (Places count from the front of the circuit.)
#[derive(Clone, Copy)]
struct Line(&'static str, &'static str);

const EXAMPLE: [Line; 8] = [
    Line("(kind nine)", "(kind nine)"),
    Line("(fault s 0 0)", "(entry 0)"),
    Line("(fault s 0 1)", "(entry 1)"),
    Line("(search 0 100)", "(fewest x1 7)"),
    Line("(search 1 4)", "(spent 00 4)"),
    Line("(cover 0)", "(covered 0)"),
    Line(
        "(list)",
        "(entry 0 s 0 0 fewest x1 7)\n(entry 1 s 0 1 spent 00 4)\n(coverage 2 2)",
    ),
    Line("(search 1 100)", "(fewest x0 5)"),
];

const BY_SEVEN: [Line; 5] = [
    Line("(kind seven)", "(kind seven)"),
    Line("(fault s 0 0)", "(entry 0)"),
    Line("(fault s 0 1)", "(entry 1)"),
    Line("(search 0 100)", "(fewest 01 7)"),
    Line("(search 1 100)", "(fewest x0 5)"),
];

const BY_FIVE: [Line; 5] = [
    Line("(kind five)", "(kind five)"),
    Line("(fault s 0 0)", "(entry 0)"),
    Line("(fault s 0 1)", "(entry 1)"),
    Line("(search 0 100)", "(fewest 01 7)"),
    Line("(search 1 100)", "(fewest 00 6)"),
];

const SEARCHED_AGAIN: [Line; 7] = [
    Line("(kind nine)", "(kind nine)"),
    Line("(fault s 0 0)", "(entry 0)"),
    Line("(search 0 5)", "(spent none 5)"),
    Line("(search 0 5)", "(refused folder 19 106)"),
    Line("(search 0 20)", "(spent 011 20)"),
    Line("(search 0 21)", "(fewest 011 21)"),
    Line("(search 0 22)", "(refused folder 17 147)"),
];

const COVERED: [Line; 13] = [
    Line("(kind nine)", "(kind nine)"),
    Line("(fault p 0 0)", "(entry 0)"),
    Line("(fault a 0 0)", "(entry 1)"),
    Line("(fault y 0 0)", "(entry 2)"),
    Line("(fault y 0 1)", "(entry 3)"),
    Line("(search 0 100)", "(redundant none 5)"),
    Line("(search 1 100)", "(fewest 1x 3)"),
    Line("(cover 1)", "(covered 1)"),
    Line("(cover 1)", "(covered 0)"),
    Line("(search 2 100)", "(refused folder 17 180)"),
    Line("(cover 2)", "(refused folder 21 195)"),
    Line("(cover 0)", "(refused folder 21 205)"),
    Line(
        "(list)",
        "(entry 0 p 0 0 redundant none 5)\n(entry 1 a 0 0 fewest 1x 3)\n(entry 2 y 0 0 covered none 1)\n(entry 3 y 0 1 open none 0)\n(coverage 2 4)",
    ),
];

const REFUSED: [Line; 27] = [
    Line("(list)", "(refused form 4 52)"),
    Line("(search 0 1)", "(refused form 4 59)"),
    Line("(cover x)", "(refused form 4 72)"),
    Line("(kind ten)", "(refused form 5 87)"),
    Line("(searches 0 1)", "(refused form 5 93)"),
    Line("(kind nine)", "(kind nine)"),
    Line("(kind five)", "(refused form 4 120)"),
    Line("(search 0 1)", "(refused folder 16 131)"),
    Line(" (cover 0)", "(refused folder 16 144)"),
    Line("(fault s 0 0)", "(entry 0)"),
    Line("(search 0 0)", "(refused folder 18 169)"),
    Line("(search 0 1000001)", "(refused folder 18 182)"),
    Line(" ( search 1 0 )", "(refused folder 16 201)"),
    Line("(cover 0)", "(refused folder 21 217)"),
    Line("(search 00 1)", "(refused text 2 235)"),
    Line("(search 0 01)", "(refused text 2 251)"),
    Line("(search s 1)", "(refused text 2 263)"),
    Line("(search 0)", "(refused form 4 277)"),
    Line("(search 0 1 2)", "(refused text 2 291)"),
    Line("(search 0 1 s)", "(refused form 4 306)"),
    Line("(search 0 10000000)", "(refused text 2 319)"),
    Line("(cover)", "(refused form 4 335)"),
    Line("(cover 0 0)", "(refused text 2 346)"),
    Line("(cover (0))", "(refused form 4 356)"),
    Line("(cover 0) (", "(refused form 4 371)"),
    Line("(list)", "(entry 0 s 0 0 open none 0)\n(coverage 0 1)"),
    Line("(cover 0", "(refused form 4 388)"),
];

// Answers the lines that follow the circuit, each after the one before.
fn expect_replies(
    rt: &impl Abort,
    heap: Global,
    circuit: &str,
    lines: &[Line],
) -> Result<(), Fail> {
    let mut text = String::from_str(heap, circuit)?;
    for Line(job, _) in lines {
        writeln!(text, "{job}")?;
    }
    let opening = open(heap, text.as_bytes())?;
    let Opening::Session { mut session, rest } = opening else {
        panic!(rt; "refused: {circuit}")
    };
    let mut place = rest.place;
    assert_eq!(rt; place, circuit.len(), "{circuit}");
    for Line(job, expected) in lines {
        let answer = session.answer(heap, text.as_bytes(), place)?;
        let Answer { reply, next } = answer.ok_or("no reply")?;
        let written = format!(in heap; "{reply}")?;
        let line = format!(in heap; "{expected}\n")?;
        assert_eq!(rt; written.as_str(), line.as_str(), "{job}");
        place = next;
    }
    assert!(rt; session.answer(heap, text.as_bytes(), place)?.is_none());
    Ok(())
}

#[test]
fn searched_and_covered(rt: HostRuntime) -> Result<(), Fail> {
    let heap = rt.alloc();
    expect_replies(&rt, heap, SELECTED, &EXAMPLE)?;
    expect_replies(&rt, heap, SELECTED, &BY_SEVEN)?;
    expect_replies(&rt, heap, SELECTED, &BY_FIVE)?;
    expect_replies(&rt, heap, MULTIPLEXER, &SEARCHED_AGAIN)?;
    expect_replies(&rt, heap, ABSORBED, &COVERED)
}

#[test]
fn refused_jobs(rt: HostRuntime) -> Result<(), Fail> {
    expect_replies(&rt, rt.alloc(), SELECTED, &REFUSED)
}
