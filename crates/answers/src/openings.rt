// What texts open: the replies to those whose circuit is refused, and a session in a circuit that held another one.
use circuit::Circuit;
use reader::read;
use session::{Answer, Opening, open, open_in};
use std::test::Fail;

// A text, and the reply.
#[derive(Clone, Copy)]
struct Refused(&'static str, &'static str);

const REFUSED: [Refused; 6] = [
    Refused("?", "(refused text 1 0)"),
    Refused("(inputs abcdefghi)", "(refused text 2 8)"),
    Refused("(inputs a)\n(list)", "(refused form 5 12)"),
    Refused("(inputs a)\n(gate y (and a))", "(refused form 6 25)"),
    Refused("(inputs a a)\n(kind nine)\n", "(refused circuit 8 10)"),
    Refused("(inputs a)", "(refused circuit 10 10)"),
];

#[test]
fn refused_circuits(rt: HostRuntime) -> Result<(), Fail> {
    let heap = rt.alloc();
    for Refused(text, expected) in &REFUSED {
        let opening = open(heap, text.as_bytes())?;
        let Opening::Refused { reply } = opening else {
            panic!(rt; "granted: {text}")
        };
        let written = format!(in heap; "{reply}")?;
        let line = format!(in heap; "{expected}\n")?;
        assert_eq!(rt; written.as_str(), line.as_str(), "{text}");
    }
    Ok(())
}

#[test]
fn opened_in_another_circuit(rt: HostRuntime) -> Result<(), Fail> {
    let heap = rt.alloc();
    let mut circuit = Circuit::blank(heap)?;
    let before = b"(inputs a b)\n(gate y (and a b))\n(outputs y)\n";
    let _ = read(heap, before, &mut circuit)?;
    let text = b"(inputs c)\n(outputs c)\n(kind nine)\n(fault c 0 1)\n";
    let opening = open_in(heap, circuit, text)?;
    let Opening::Session { mut session, rest } = opening else {
        panic!(rt; "refused")
    };
    assert_eq!(rt; rest.place, 23);
    assert_eq!(rt; rest.bytes, b"(kind nine)\n(fault c 0 1)\n".as_slice());
    // the fault is one of the circuit that was read, and not of the one before
    let Some(Answer { next, .. }) = session.answer(heap, text, rest.place)? else {
        panic!(rt; "no kind was chosen")
    };
    let Some(Answer { reply, .. }) = session.answer(heap, text, next)? else {
        panic!(rt; "no fault was entered")
    };
    let written = format!(in heap; "{reply}")?;
    assert_eq!(rt; written.as_str(), "(entry 0)\n");
    Ok(())
}
