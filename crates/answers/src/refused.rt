// Texts that are refused: the text, the number and the place.
use crate::expect::{Refused, expect_all_refused};
use std::test::Fail;

// How a text begins, and where it may end.
const BEGINNINGS: [Refused; 29] = [
    Refused("", 10, 0),
    Refused("   ", 10, 3),
    Refused("\n", 4, 0),
    Refused("  \n(inputs a)\n(outputs a)\n", 4, 2),
    Refused("\n(inputs a)\n(outputs a)\n", 4, 0),
    Refused("inputs a\n(outputs a)\n", 4, 0),
    Refused(")", 4, 0),
    Refused("(", 4, 1),
    Refused("(inputs", 4, 7),
    Refused("(inputs a", 4, 9),
    Refused("(inputs a  ", 4, 11),
    Refused("(inputs a)", 10, 10),
    Refused("(inputs a)   ", 10, 13),
    Refused("(inputs a)\n", 10, 11),
    Refused("(inputs a)\n  ", 10, 13),
    Refused("(inputs a)\n(gate y (not a))", 10, 27),
    Refused("(inputs a)\n(gate y (not a))\n", 10, 28),
    Refused("(inputs a)\n(gate y (not a)", 4, 26),
    Refused("(inputs a)\n(gate y (not a", 4, 25),
    Refused("(inputs a)\n(outputs a", 4, 21),
    Refused("(inputs a)\n\n(outputs a)\n", 4, 11),
    Refused("(inputs a)\n  \n(outputs a)\n", 4, 13),
    Refused("(inputs a)\n(gate y (not a))\n\n(outputs y)\n", 4, 28),
    Refused("(inputs a) (outputs a)\n", 4, 11),
    Refused("(inputs a\n)\n(outputs a)\n", 4, 9),
    Refused("(inputs a))\n(outputs a)\n", 4, 10),
    Refused("(inputs a)\n(outputs a) b\n", 4, 23),
    Refused("(inputs a)\n(outputs a)(list)\n", 4, 22),
    Refused("(inputs a)\n(outputs a))\n", 4, 22),
];

#[test]
fn lines_and_their_ends(rt: HostRuntime) -> Result<(), Fail> {
    expect_all_refused(&rt, rt.alloc(), "", &BEGINNINGS)
}

// Bytes that no text may have, and the words before them.
const BYTES: [Refused; 19] = [
    Refused("?", 1, 0),
    Refused("\0(inputs a)\n", 1, 0),
    Refused("(inputs A)\n(outputs a)\n", 1, 8),
    Refused("(Inputs a)\n(outputs a)\n", 1, 1),
    Refused("(inputs aB)\n", 1, 9),
    Refused("(inputs ab?c)\n", 1, 10),
    Refused("(inputs a\tb)\n", 1, 9),
    Refused("(inputs a)\r\n(outputs a)\r\n", 1, 10),
    Refused("(inputs a\0)\n", 1, 9),
    Refused("(inputs a)\n(gate y (and a a -))\n", 1, 28),
    Refused("(inputs a)\n(gate y (not a ?))\n", 1, 26),
    Refused("(inputs a)\n(gate y (not a)?\n", 1, 26),
    Refused("(inputs a)\n(outputs a)?\n", 1, 22),
    Refused("(inputs a)\n(outputs a) ; the end\n", 1, 23),
    Refused("\u{e9}", 1, 0),
    Refused("abc?", 4, 0),
    Refused("abcdefghi?", 2, 0),
    Refused("(inputs a a?)\n", 8, 10),
    Refused("(inputs a)\n(outputs b?)\n", 7, 20),
];

#[test]
fn forbidden_bytes(rt: HostRuntime) -> Result<(), Fail> {
    expect_all_refused(&rt, rt.alloc(), "", &BYTES)
}

// Words of no right shape: this is said before anything else about a word.
const WORDS: [Refused; 23] = [
    Refused("(inputs abcdefghi)\n", 2, 8),
    Refused("(inputs a12345678)\n", 2, 8),
    Refused("(inputs 1a)\n", 2, 8),
    Refused("(inputs a 0)\n", 2, 10),
    Refused("abcdefghi", 2, 0),
    Refused("1", 2, 0),
    Refused("(inputs a) 2\n", 2, 11),
    Refused("(inputs a)\n3\n", 2, 11),
    Refused("(inputs a)\n(gate y 4)\n", 2, 19),
    Refused("(inputs a)\n(gate y (not a) 5)\n", 2, 27),
    Refused("(inputs a)\n(outputs a) 6\n", 2, 23),
    Refused("(inputsabc a)\n", 2, 1),
    Refused("(2inputs a)\n", 2, 1),
    Refused("(inputs a)\n(gate56789 y (not a))\n", 2, 12),
    Refused("(inputs a)\n(gate y (2and a a))\n", 2, 20),
    Refused("(inputs a)\n(gate y (abcdefghi a a))\n", 2, 20),
    Refused("(inputs a)\n(gate y (not a 7))\n", 2, 26),
    Refused(
        "(inputs a)\n(gate y (and a a a a a a a a abcdefghi))\n",
        2,
        40,
    ),
    Refused("(inputs a)\n(gate y (and a 8))\n", 2, 26),
    Refused("(inputs a)\n(outputs abcdefghi)\n", 2, 20),
    Refused("(inputs abcdefgh abcdefghi)\n", 2, 17),
    Refused(
        "(inputs abcdefgh)\n(gate abcdefghi (not abcdefgh))\n",
        2,
        24,
    ),
    Refused("(inputs abcdefgh)\n(outputs abcdefgh abcdefghi)\n", 2, 36),
];

#[test]
fn malformed_words(rt: HostRuntime) -> Result<(), Fail> {
    expect_all_refused(&rt, rt.alloc(), "", &WORDS)
}

// Eight brackets may be open together, the line's own among them.
const BRACKETS: [Refused; 7] = [
    Refused(
        "(inputs a)\n(gate y (not (not (not (not (not (not (not (not a)))))))))\n(outputs y)\n",
        3,
        54,
    ),
    Refused(
        "(inputs a)\n(gate y (not (not (not (not (not (not ((not a)))))))))\n(outputs y)\n",
        3,
        50,
    ),
    Refused(
        "(inputs a)\n(gate y (not (not (not (not (not ((not a))))))))\n(outputs y)\n",
        4,
        45,
    ),
    Refused(
        "(inputs a)\n(gate y (not (not (not (not (not (not (not a (not a)))))))))\n(outputs y)\n",
        3,
        56,
    ),
    Refused(
        "(inputs a)\n(gate y (not (not (not (not (not (not a (not a))))))))\n(outputs y)\n",
        6,
        51,
    ),
    Refused(
        "(inputs a)\n(gate y (and a (and a (and a (and a (and a (and a (and a (\n",
        3,
        68,
    ),
    Refused(
        "(inputs a)\n(gate y (or a (or a (or a (or a (or a (or a (or a a a a a a a a (9?\n",
        3,
        75,
    ),
];

#[test]
fn open_brackets(rt: HostRuntime) -> Result<(), Fail> {
    expect_all_refused(&rt, rt.alloc(), "", &BRACKETS)
}

// Heads and operators.
const HEADS: [Refused; 24] = [
    Refused("(gate y (not a))\n", 4, 1),
    Refused("(outputs a)\n", 4, 1),
    Refused("(inputs a)\n(inputs b)\n(outputs a)\n", 4, 12),
    Refused("(inputs a)\n(gate y (not a))\n(inputs b)\n", 4, 29),
    Refused("(circuit a)\n", 5, 1),
    Refused("(input a)\n", 5, 1),
    Refused("(inputss a)\n", 5, 1),
    Refused("(list)\n", 5, 1),
    Refused("(and a a)\n", 5, 1),
    Refused("(inputs a)\n(kind nine)\n", 5, 12),
    Refused("(inputs a)\n(fault a 0 0)\n", 5, 12),
    Refused("(inputs a)\n(search 0 100)\n", 5, 12),
    Refused("(inputs a)\n(cover 0)\n", 5, 12),
    Refused("(inputs a)\n(list)\n", 5, 12),
    Refused("(inputs a)\n(a)\n", 5, 12),
    Refused("(inputs a)\n(output a)\n", 5, 12),
    Refused("(inputs a)\n(gate y (nxor a a))\n", 5, 20),
    Refused("(inputs a)\n(gate y (an a a))\n", 5, 20),
    Refused("(inputs a)\n(gate y (ands a a))\n", 5, 20),
    Refused("(inputs a)\n(gate y (a a a))\n", 5, 20),
    Refused("(inputs a)\n(gate y (gate a a))\n", 5, 20),
    Refused("(inputs a)\n(gate y (outputs a))\n", 5, 20),
    Refused("(inputs a)\n(gate y (nine a))\n", 5, 20),
    Refused("(inputs a)\n(gate y (and a (y a)))\n", 5, 27),
];

#[test]
fn heads_and_operators(rt: HostRuntime) -> Result<(), Fail> {
    expect_all_refused(&rt, rt.alloc(), "", &HEADS)
}

// What is due inside the lines.
const ORDER: [Refused; 18] = [
    Refused("(inputs)\n(outputs a)\n", 4, 7),
    Refused("(inputs )\n(outputs a)\n", 4, 8),
    Refused("(inputs (a))\n", 4, 8),
    Refused("(inputs a (b))\n", 4, 10),
    Refused("(inputs a)\n(outputs)\n", 4, 19),
    Refused("(inputs a)\n(outputs (a))\n", 4, 20),
    Refused("(inputs a)\n(gate (and a a))\n", 4, 17),
    Refused("(inputs a)\n(gate)\n", 4, 16),
    Refused("(inputs a)\n(gate y)\n", 4, 18),
    Refused("(inputs a)\n(gate y a)\n", 4, 19),
    Refused("(inputs a)\n(gate y and a a)\n", 4, 19),
    Refused("(inputs a)\n(gate y ())\n", 4, 20),
    Refused("(inputs a)\n(gate y ((not a)))\n", 4, 20),
    Refused("(inputs a)\n(gate y (and a a) a)\n", 4, 29),
    Refused("(inputs a)\n(gate y (and a a) (not a))\n", 4, 29),
    Refused("(inputs a)\n(gate y (and a \na))\n", 4, 26),
    Refused("(inputs a)\n(gate y (not a)\n)\n", 4, 26),
    Refused("(inputs a)\n(\ngate y (not a))\n", 4, 12),
];

#[test]
fn what_is_due(rt: HostRuntime) -> Result<(), Fail> {
    expect_all_refused(&rt, rt.alloc(), "", &ORDER)
}

// Operands too many or too few.
const COUNTS: [Refused; 16] = [
    Refused("(inputs a)\n(gate y (and))\n", 6, 23),
    Refused("(inputs a)\n(gate y (not ))\n", 6, 24),
    Refused("(inputs a)\n(gate y (buf))\n", 6, 23),
    Refused("(inputs a)\n(gate y (not a a))\n", 6, 26),
    Refused("(inputs a)\n(gate y (buf a a))\n", 6, 26),
    Refused("(inputs a)\n(gate y (or a a a a a a a a a))\n", 6, 39),
    Refused("(inputs a)\n(gate y (not a b))\n", 6, 26),
    Refused("(inputs a)\n(gate y (not a y))\n", 6, 26),
    Refused("(inputs a)\n(gate y (or a a a a a a a a b))\n", 6, 39),
    Refused("(inputs a)\n(gate y (not a (?", 6, 26),
    Refused("(inputs a)\n(gate y (buf a (nxor b 9)))\n", 6, 26),
    Refused(
        "(inputs a)\n(gate y (nor a a a a a a a a (not a)))\n",
        6,
        40,
    ),
    Refused("(inputs a)\n(gate y (and a (or a)))\n", 6, 31),
    Refused("(inputs a)\n(gate y (and (not a)))\n", 6, 31),
    Refused("(inputs a)\n(gate y (and a\n))\n", 4, 25),
    Refused("(inputs a)\n(gate y (not a\n))\n", 4, 25),
];

#[test]
fn operand_counts(rt: HostRuntime) -> Result<(), Fail> {
    expect_all_refused(&rt, rt.alloc(), "", &COUNTS)
}

// Names: not known yet, or taken already.
const NAMES: [Refused; 15] = [
    Refused("(inputs a b a)\n", 8, 12),
    Refused("(inputs a)\n(gate a (not a))\n", 8, 17),
    Refused("(inputs a)\n(gate y (not a))\n(gate y (not a))\n", 8, 34),
    Refused("(inputs a)\n(gate a nothing that follows is read\n", 8, 17),
    Refused("(inputs a)\n(outputs a a)\n", 8, 22),
    Refused("(inputs a)\n(gate y (not a))\n(outputs y a y)\n", 8, 41),
    Refused("(inputs a)\n(gate y (and a b))\n", 7, 26),
    Refused("(inputs a)\n(gate y (and and a))\n", 7, 24),
    Refused("(inputs a)\n(gate y (and a y))\n", 7, 26),
    Refused("(inputs a)\n(gate y (and a (not y)))\n", 7, 31),
    Refused(
        "(inputs a)\n(gate y (not z))\n(gate z (not a))\n(outputs y)\n",
        7,
        24,
    ),
    Refused("(inputs a)\n(outputs b)\n", 7, 20),
    Refused("(inputs a)\n(outputs none)\n", 7, 20),
    Refused("(inputs ab)\n(outputs a)\n", 7, 21),
    Refused("(inputs a)\n(outputs a ab)\n", 7, 22),
];

#[test]
fn unknown_and_taken_names(rt: HostRuntime) -> Result<(), Fail> {
    expect_all_refused(&rt, rt.alloc(), "", &NAMES)
}

// The examples of docs/CIRCUIT_TEXT.md and docs/REFUSALS.md.
const EXAMPLES: [Refused; 24] = [
    Refused("(inputs a a)", 8, 10),
    Refused("(inputs a)", 10, 10),
    Refused("(inputs a", 4, 9),
    Refused("(inputs a)\n\n(outputs a)", 4, 11),
    Refused("(inputs a)\n  ", 10, 13),
    Refused("(outputs a)", 4, 1),
    Refused("(inputs a)\n(list)", 5, 12),
    Refused("(inputs a)\n(gate y (gate a a))", 5, 20),
    Refused("(inputs a)\n(gate y a)", 4, 19),
    Refused("(inputs a)\n(gate y (and a))", 6, 25),
    Refused("(inputs a)\n(gate y (not a b))", 6, 26),
    Refused("(inputs a)\n(gate y (not y))", 7, 24),
    Refused("(inputs a)\n(gate y (not 7up))", 2, 24),
    Refused("(abc?", 5, 1),
    Refused("(inputs ab?c)", 1, 10),
    Refused("(inputs a)\n(outputs a) b", 4, 23),
    Refused("(inputs abcdefghi)", 2, 8),
    Refused(
        "(inputs a)\n(gate y (not (not (not (not (not (not (not (",
        3,
        54,
    ),
    Refused("(inputs)", 4, 7),
    Refused("(inputs a)\n(gate y (nxor a a))", 5, 20),
    Refused("(inputs a)\n(outputs b)", 7, 20),
    Refused("(inputs a)\n(gate y 4)", 2, 19),
    Refused("(inputs a)\n(gate y (2and a a))", 2, 20),
    Refused("(inputs a)\n(gate y (not a 7))", 2, 26),
];

#[test]
fn examples_of_the_documents(rt: HostRuntime) -> Result<(), Fail> {
    expect_all_refused(&rt, rt.alloc(), "", &EXAMPLES)
}
