// Both sides of the limit on entries, and what wins where two refusals fit.
use crate::expect::{circuit_of, stuck_at, with_gates};
use circuit::Circuit;
use folder::Folder;
use refusals::Refusal;
use std::alloc::Global;
use std::process::Abort;
use std::test::Fail;

// A circuit with 257 lines: one input, and as many inverters of it as are needed.
fn wide_circuit(heap: Global) -> Result<Circuit, Fail> {
    let mut text = with_gates(heap, 256)?;
    text.push_str("(outputs g0)\n")?;
    Ok(circuit_of(heap, text.as_str())?)
}

fn expect_number(rt: &impl Abort, answer: Result<usize, Refusal>, number: u8) {
    let cause = answer.err().and_then(|refusal| refusal.cause());
    assert_eq!(rt; cause.map(|cause| cause.number), Some(number));
}

#[test]
fn five_hundred_and_twelve_entries(rt: HostRuntime) -> Result<(), Fail> {
    let heap = rt.alloc();
    let mut folder = Folder::new(heap, wide_circuit(heap)?);
    for line in 0..256 {
        assert_eq!(rt; folder.enter(stuck_at(line, 0, 0))?, 2 * line);
        assert_eq!(rt; folder.enter(stuck_at(line, 0, 1))?, 2 * line + 1);
    }
    assert_eq!(rt; folder.entries().len(), 512);
    expect_number(&rt, folder.enter(stuck_at(256, 0, 0)), 15);
    expect_number(&rt, folder.enter(stuck_at(0, 0, 0)), 14);
    expect_number(&rt, folder.enter(stuck_at(257, 0, 0)), 11);
    expect_number(&rt, folder.enter(stuck_at(256, 2, 0)), 12);
    expect_number(&rt, folder.enter(stuck_at(256, 1, 2)), 13);
    assert_eq!(rt; folder.entries().len(), 512);
    Ok(())
}
