// Reading a job line, for callers.
ghost use Rattle.std.specs.Prelude.{◌≡◌, min, length};
ghost use Rattle.circuit.specs.Model.{names};
ghost use Rattle.words.specs.Lexemes.{lexemes_from};
ghost use Rattle.jobs.specs.JobLines.{line_begin, run};
ghost use Rattle.jobs.specs.Reading.{ReadInTurn, ReadForward, job_answer};

use crate::job::{JobLine, Kind};
use crate::parts::JobReader;
use circuit::Circuit;
use refusals::Refusal;
use words::{Lexer, Mark, Token, expect_mark};

// Reads as the definition does. What `read_job` promises besides follows from that.
fn read_line(
    text: &[u8],
    place: usize,
    circuit: &Circuit,
    chosen: Option<Kind>,
) -> Result<Option<JobLine>, Refusal>
    ensures value { result ≡ job_answer (run (names circuit.now) chosen line_begin (lexemes_from text.now (min place (length text.now)))) }
    ensures turn { ReadInTurn chosen result }
{
    let mut lexer = Lexer::new(text, place);
    let token = lexer.next_token();
    if let Token::TextEnd { .. } = token {
        return Ok(None);
    }
    expect_mark(token, Mark::Opening)?;
    let mut reader = JobReader {
        lexer,
        circuit,
        chosen,
    };
    let job = reader.job()?;
    let next = reader.line_rest()?;
    Ok(Some(JobLine { job, next }))
}

// Reads the job line that begins at that place of the text: the job, and where the next line begins; nothing where only
// spaces are left. `chosen` is the kind that was chosen, if one was. (Text and place, and no `Lexer`: the caller keeps the place
// between calls, and after a refusal goes on at another one.)
#[tactic(auto, using(crate::proofs::Forward::read_forward))]
pub fn read_job(
    text: &[u8],
    place: usize,
    circuit: &Circuit,
    chosen: Option<Kind>,
) -> Result<Option<JobLine>, Refusal>
    ensures value { result ≡ job_answer (run (names circuit.now) chosen line_begin (lexemes_from text.now (min place (length text.now)))) }
    ensures turn { ReadInTurn chosen result }
    ensures forward { ReadForward text.now place result }
{
    read_line(text, place, circuit, chosen)
}
