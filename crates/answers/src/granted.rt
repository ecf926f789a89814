// Texts that are granted, with the circuit of each, line by line.
use crate::expect::{Size, expect_granted};
use circuit::Circuit;
use reader::read;
use std::alloc::Global;
use std::fmt::Write;
use std::test::Fail;

// A text that is granted: how large its circuit is, where the rest begins and what it is, and the circuit drawn.
//
// A drawing has the lines in the order of their numbers, then a colon and the outputs' numbers. An input is its name. A
// gate is its name, or `-` where it has none, then `=`, its operator and the numbers of its operands.
#[derive(Clone, Copy)]
struct Granted {
    text: &'static str,
    size: Size,
    place: usize,
    rest: &'static str,
    drawn: &'static str,
}

const CIRCUITS: [Granted; 26] = [
    Granted {
        text: "(inputs a)\n(outputs a)\n",
        size: Size {
            inputs: 1,
            lines: 1,
            outputs: 1,
        },
        place: 23,
        rest: "",
        drawn: "a: 0",
    },
    Granted {
        text: "(inputs a)\n(outputs a)",
        size: Size {
            inputs: 1,
            lines: 1,
            outputs: 1,
        },
        place: 22,
        rest: "",
        drawn: "a: 0",
    },
    Granted {
        text: "(inputs a)\n(outputs a)   ",
        size: Size {
            inputs: 1,
            lines: 1,
            outputs: 1,
        },
        place: 25,
        rest: "",
        drawn: "a: 0",
    },
    Granted {
        text: "(inputs a)\n(outputs a)\n\n",
        size: Size {
            inputs: 1,
            lines: 1,
            outputs: 1,
        },
        place: 23,
        rest: "\n",
        drawn: "a: 0",
    },
    Granted {
        text: "(inputs a)\n(outputs a)\n  ",
        size: Size {
            inputs: 1,
            lines: 1,
            outputs: 1,
        },
        place: 23,
        rest: "  ",
        drawn: "a: 0",
    },
    Granted {
        text: "(inputs a)\n(outputs a)  \n(list)",
        size: Size {
            inputs: 1,
            lines: 1,
            outputs: 1,
        },
        place: 25,
        rest: "(list)",
        drawn: "a: 0",
    },
    Granted {
        text: "(inputs a)\n(outputs a)\n? A\t(((((((((( 1234567890\r\n",
        size: Size {
            inputs: 1,
            lines: 1,
            outputs: 1,
        },
        place: 23,
        rest: "? A\t(((((((((( 1234567890\r\n",
        drawn: "a: 0",
    },
    Granted {
        text: "(inputs a)\n(outputs a)\n(kind nine)\n(list)\n",
        size: Size {
            inputs: 1,
            lines: 1,
            outputs: 1,
        },
        place: 23,
        rest: "(kind nine)\n(list)\n",
        drawn: "a: 0",
    },
    Granted {
        text: "(inputs a)\n(outputs a)\n(inputs b)\n(outputs b)\n",
        size: Size {
            inputs: 1,
            lines: 1,
            outputs: 1,
        },
        place: 23,
        rest: "(inputs b)\n(outputs b)\n",
        drawn: "a: 0",
    },
    Granted {
        text: "(inputs a b)\n(gate y (and a b))\n(outputs b)\n(outputs y)\n",
        size: Size {
            inputs: 2,
            lines: 3,
            outputs: 1,
        },
        place: 44,
        rest: "(outputs y)\n",
        drawn: "a, b, y=and 0 1: 1",
    },
    Granted {
        text: "(inputs a b)\n(gate y(and(not a)b))\n(outputs y)\n",
        size: Size {
            inputs: 2,
            lines: 4,
            outputs: 1,
        },
        place: 47,
        rest: "",
        drawn: "a, b, -=not 0, y=and 2 1: 3",
    },
    Granted {
        text: "(inputs a b)\n(gate y(nor a(buf b)a))\n(outputs a y)\n",
        size: Size {
            inputs: 2,
            lines: 4,
            outputs: 2,
        },
        place: 51,
        rest: "",
        drawn: "a, b, -=buf 1, y=nor 0 2 0: 0 3",
    },
    Granted {
        text: "  (  inputs  a  b  )  \n  (  gate  y  (  or  a  b  )  )  \n  (  outputs  y  a  )  \n (list)",
        size: Size {
            inputs: 2,
            lines: 3,
            outputs: 2,
        },
        place: 81,
        rest: " (list)",
        drawn: "a, b, y=or 0 1: 2 0",
    },
    Granted {
        text: "(inputs a s)\n(gate y (or (and s a) s))\n(outputs y)",
        size: Size {
            inputs: 2,
            lines: 4,
            outputs: 1,
        },
        place: 50,
        rest: "",
        drawn: "a, s, -=and 1 0, y=or 2 1: 3",
    },
    Granted {
        text: "(inputs a b s)\n(gate y (or (and a (not s)) (and b s)))\n(outputs y)\n",
        size: Size {
            inputs: 3,
            lines: 7,
            outputs: 1,
        },
        place: 67,
        rest: "",
        drawn: "a, b, s, -=not 2, -=and 0 3, -=and 1 2, y=or 4 5: 6",
    },
    Granted {
        text: "(inputs a b)\n(gate p (and a b))\n(gate y (or a p))\n(outputs y)\n",
        size: Size {
            inputs: 2,
            lines: 4,
            outputs: 1,
        },
        place: 62,
        rest: "",
        drawn: "a, b, p=and 0 1, y=or 0 2: 3",
    },
    Granted {
        text: "(inputs a b)\n(gate y (xor a b))\n(gate z (xnor b a))\n(outputs z b y)\n",
        size: Size {
            inputs: 2,
            lines: 4,
            outputs: 3,
        },
        place: 68,
        rest: "",
        drawn: "a, b, y=xor 0 1, z=xnor 1 0: 3 1 2",
    },
    Granted {
        text: "(inputs inputs gate outputs)\n(gate and (and inputs gate))\n(gate kind (or and outputs))\n(outputs kind outputs)\n",
        size: Size {
            inputs: 3,
            lines: 5,
            outputs: 2,
        },
        place: 110,
        rest: "",
        drawn: "inputs, gate, outputs, and=and 0 1, kind=or 3 2: 4 2",
    },
    Granted {
        text: "(inputs five nine none not)\n(gate list (nand five not))\n(gate xor (nor nine (buf none)))\n(outputs xor list)\n",
        size: Size {
            inputs: 4,
            lines: 7,
            outputs: 2,
        },
        place: 108,
        rest: "",
        drawn: "five, nine, none, not, list=nand 0 3, -=buf 2, xor=nor 1 5: 6 4",
    },
    Granted {
        text: "(inputs a)\n(gate y (and a a a a a a a a))\n(outputs y)\n",
        size: Size {
            inputs: 1,
            lines: 2,
            outputs: 1,
        },
        place: 54,
        rest: "",
        drawn: "a, y=and 0 0 0 0 0 0 0 0: 1",
    },
    Granted {
        text: "(inputs a)\n(gate y (not (not (not (not (not (not (not a))))))))\n(outputs y)\n",
        size: Size {
            inputs: 1,
            lines: 8,
            outputs: 1,
        },
        place: 76,
        rest: "",
        drawn: "a, -=not 0, -=not 1, -=not 2, -=not 3, -=not 4, -=not 5, y=not 6: 7",
    },
    Granted {
        text: "(inputs abcdefgh a1234567 z0)\n(outputs z0 a1234567 abcdefgh)",
        size: Size {
            inputs: 3,
            lines: 3,
            outputs: 3,
        },
        place: 60,
        rest: "",
        drawn: "abcdefgh, a1234567, z0: 2 1 0",
    },
    Granted {
        text: "(inputs a)\n(gate y (not a))\n(gate z (not y))\n(outputs z)\n",
        size: Size {
            inputs: 1,
            lines: 3,
            outputs: 1,
        },
        place: 57,
        rest: "",
        drawn: "a, y=not 0, z=not 1: 2",
    },
    Granted {
        text: "(inputs a b)\n(gate y (or (not a) (not b) (buf a) (buf b) (and a b) (or a b) (xor a b) (nor a b)))\n(outputs y)\n",
        size: Size {
            inputs: 2,
            lines: 11,
            outputs: 1,
        },
        place: 110,
        rest: "",
        drawn: "a, b, -=not 0, -=not 1, -=buf 0, -=buf 1, -=and 0 1, -=or 0 1, -=xor 0 1, -=nor 0 1, y=or 2 3 4 5 6 7 8 9: 10",
    },
    Granted {
        text: "(inputs a b c)\n(gate y (xor (and (or a b) c) b (nand (nor b c) (not a))))\n(gate z (buf y))\n(outputs a y z)\n",
        size: Size {
            inputs: 3,
            lines: 10,
            outputs: 3,
        },
        place: 107,
        rest: "",
        drawn: "a, b, c, -=or 0 1, -=and 3 2, -=nor 1 2, -=not 0, -=nand 5 6, y=xor 4 1 7, z=buf 8: 0 8 9",
    },
    Granted {
        text: "(inputs a aa aaa)\n(gate ab (nor aa aaa))\n(outputs ab aaa)\n",
        size: Size {
            inputs: 3,
            lines: 4,
            outputs: 2,
        },
        place: 58,
        rest: "",
        drawn: "a, aa, aaa, ab=nor 1 2: 3 2",
    },
];

fn drawing(heap: Global, circuit: &Circuit) -> Result<String, Fail> {
    let mut text = String::new(heap);
    for line in 0..circuit.line_count() {
        let separator = if line == 0 { "" } else { ", " };
        match circuit.line_name(line) {
            Some(name) => write!(text, "{separator}{name}")?,
            None => write!(text, "{separator}-")?,
        }
        if let Some(gate) = circuit.gate(line) {
            write!(text, "={}", gate.op)?;
            for operand in &gate.operands {
                write!(text, " {operand}")?;
            }
        }
    }
    write!(text, ":")?;
    for output in circuit.outputs() {
        write!(text, " {output}")?;
    }
    Ok(text)
}

#[test]
fn circuits_line_by_line(rt: HostRuntime) -> Result<(), Fail> {
    let heap = rt.alloc();
    for case in &CIRCUITS {
        let text = case.text;
        expect_granted(&rt, heap, text.as_bytes(), case.size, case.place)?;
        let mut circuit = Circuit::blank(heap)?;
        let rest = read(heap, text.as_bytes(), &mut circuit)?;
        assert_eq!(rt; rest.bytes, case.rest.as_bytes(), "{text}");
        let drawn = drawing(heap, &circuit)?;
        assert_eq!(rt; drawn.as_str(), case.drawn, "{text}");
    }
    Ok(())
}
