// What may stand where: each point of a text, with each kind of word there.
use crate::expect::expect_refused;
use std::alloc::Global;
use std::fmt::Write;
use std::process::Abort;
use std::test::Fail;

// An opening bracket, a closing bracket, a name and a line feed.
const WORDS: [&str; 4] = ["(", ")", "zz", "\n"];

// A front of a text, by which number each of the words is refused behind it, if it is not fine there, and by which number
// the text's end is.
#[derive(Clone, Copy)]
struct Point {
    front: &'static str,
    behind: [Option<u8>; 4],
    end: u8,
}

const POINTS: [Point; 27] = [
    // the inputs line
    Point {
        front: "",
        behind: [None, Some(4), Some(4), Some(4)],
        end: 10,
    },
    Point {
        front: "(",
        behind: [Some(4), Some(4), Some(5), Some(4)],
        end: 4,
    },
    Point {
        front: "(inputs",
        behind: [Some(4), Some(4), None, Some(4)],
        end: 4,
    },
    Point {
        front: "(inputs a",
        behind: [Some(4), None, None, Some(4)],
        end: 4,
    },
    Point {
        front: "(inputs a)",
        behind: [Some(4), Some(4), Some(4), None],
        end: 10,
    },
    Point {
        front: "(inputs a)\n",
        behind: [None, Some(4), Some(4), Some(4)],
        end: 10,
    },
    // a gate line
    Point {
        front: "(inputs a)\n(",
        behind: [Some(4), Some(4), Some(5), Some(4)],
        end: 4,
    },
    Point {
        front: "(inputs a)\n(gate",
        behind: [Some(4), Some(4), None, Some(4)],
        end: 4,
    },
    Point {
        front: "(inputs a)\n(gate y",
        behind: [None, Some(4), Some(4), Some(4)],
        end: 4,
    },
    Point {
        front: "(inputs a)\n(gate y (",
        behind: [Some(4), Some(4), Some(5), Some(4)],
        end: 4,
    },
    Point {
        front: "(inputs a)\n(gate y (and",
        behind: [None, Some(6), Some(7), Some(4)],
        end: 4,
    },
    Point {
        front: "(inputs a)\n(gate y (and a",
        behind: [None, Some(6), Some(7), Some(4)],
        end: 4,
    },
    Point {
        front: "(inputs a)\n(gate y (and a a",
        behind: [None, None, Some(7), Some(4)],
        end: 4,
    },
    Point {
        front: "(inputs a)\n(gate y (and a a a a a a a a",
        behind: [Some(6), None, Some(6), Some(4)],
        end: 4,
    },
    Point {
        front: "(inputs a)\n(gate y (not",
        behind: [None, Some(6), Some(7), Some(4)],
        end: 4,
    },
    Point {
        front: "(inputs a)\n(gate y (not a",
        behind: [Some(6), None, Some(6), Some(4)],
        end: 4,
    },
    Point {
        front: "(inputs a)\n(gate y (not a)",
        behind: [Some(4), None, Some(4), Some(4)],
        end: 4,
    },
    Point {
        front: "(inputs a)\n(gate y (not a))",
        behind: [Some(4), Some(4), Some(4), None],
        end: 10,
    },
    Point {
        front: "(inputs a)\n(gate y (not a))\n",
        behind: [None, Some(4), Some(4), Some(4)],
        end: 10,
    },
    // a gate inside another
    Point {
        front: "(inputs a)\n(gate y (and a (",
        behind: [Some(4), Some(4), Some(5), Some(4)],
        end: 4,
    },
    Point {
        front: "(inputs a)\n(gate y (and a (or a",
        behind: [None, Some(6), Some(7), Some(4)],
        end: 4,
    },
    Point {
        front: "(inputs a)\n(gate y (and a (not a)",
        behind: [None, None, Some(7), Some(4)],
        end: 4,
    },
    // eight open brackets
    Point {
        front: "(inputs a)\n(gate y (not (not (not (not (not (not (",
        behind: [Some(3), Some(4), Some(5), Some(4)],
        end: 4,
    },
    Point {
        front: "(inputs a)\n(gate y (not (not (not (not (not (not (and a",
        behind: [Some(3), Some(6), Some(7), Some(4)],
        end: 4,
    },
    Point {
        front: "(inputs a)\n(gate y (not (not (not (not (not (not (not a",
        behind: [Some(3), None, Some(6), Some(4)],
        end: 4,
    },
    // the outputs line
    Point {
        front: "(inputs a)\n(outputs",
        behind: [Some(4), Some(4), Some(7), Some(4)],
        end: 4,
    },
    Point {
        front: "(inputs a)\n(outputs a",
        behind: [Some(4), None, Some(7), Some(4)],
        end: 4,
    },
];

// Behind the front and a space, the word is refused by that number. If it is fine, a byte that no text may have is refused
// behind it and a space.
fn expect_behind(
    rt: &impl Abort,
    heap: Global,
    front: &str,
    word: &str,
    number: Option<u8>,
) -> Result<(), Fail> {
    let mut text = format!(in heap; "{front} ")?;
    let place = text.len();
    write!(text, "{word} ")?;
    let behind = text.len();
    text.push_str("?")?;
    match number {
        Some(number) => expect_refused(rt, heap, text.as_bytes(), number, place),
        None => expect_refused(rt, heap, text.as_bytes(), 1, behind),
    }
}

#[test]
fn each_word_at_each_point(rt: HostRuntime) -> Result<(), Fail> {
    let heap = rt.alloc();
    for Point { front, behind, end } in POINTS {
        for (word, number) in WORDS.into_iter().zip(behind) {
            expect_behind(&rt, heap, front, word, number)?;
        }
        expect_refused(&rt, heap, front.as_bytes(), end, front.len())?;
        // a word of no right shape and a byte that no text may have, wherever they stand
        expect_behind(&rt, heap, front, "9", Some(2))?;
        expect_behind(&rt, heap, front, "zzzzzzzzz", Some(2))?;
        expect_behind(&rt, heap, front, "!", Some(1))?;
    }
    Ok(())
}
