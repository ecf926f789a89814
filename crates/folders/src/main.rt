// The program `folders`: a circuit text and job lines from standard input, a reply to each on standard output.
#![tactic(auto)]

use circuit::Circuit;
use session::{Answer, Opening, Session, open_in};
use std::io::Read;

// Writes the replies to the job lines of the text from a place on. A line takes at least one byte, so there are at most as
// many as the text has.
fn answer_jobs(
    rt: &HostRuntime,
    session: &mut Session,
    text: &[u8],
    start: usize,
) -> anyhow::Result<()> {
    let mut place = start;
    for _ in text {
        let Some(Answer { reply, next }) = session.answer(rt.alloc(), text, place)? else {
            return Ok(());
        };
        print!(rt; "{reply}")?;
        place = next;
    }
    Ok(())
}

fn run(rt: &HostRuntime) -> anyhow::Result<()> {
    let heap = rt.alloc();
    let mut text = Vec::new(heap);
    rt.stdin().read_to_end(&mut text)?;
    let circuit = Circuit::blank(heap)?;
    let opening = open_in(heap, circuit, &text)?;
    match opening {
        Opening::Session { mut session, rest } => answer_jobs(rt, &mut session, &text, rest.place),
        Opening::Refused { reply } => {
            print!(rt; "{reply}")?;
            Ok(())
        }
    }
}

fn main(rt: HostRuntime) -> anyhow::Result<()> {
    run(&rt)
}
