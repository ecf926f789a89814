// The parts of a job line.
ghost use Rattle.std.specs.Prelude.{◌≡◌, ℕ, Some, None, IfOk};
ghost use Rattle.jobs.specs.JobLines.{Due, Asked, job_head, kind_word, fault_name, number, fault_numbers, search_numbers, cover_number, line_close};
ghost use Rattle.jobs.specs.Reading.{Leads, InTurn, at};
ghost use Rattle.jobs.specs.declared.job.Job.{Job as JobModel};
ghost use Rattle.jobs.specs.declared.job.Kind.{Kind};

use crate::job::{Head, Job, Kind};
use crate::numbers::expect_number;
use circuit::Circuit;
use faults::StuckAt;
use refusals::{CircuitRefusal, FormRefusal, Refusal};
use words::{Lexer, Mark, PlacedWord, expect_mark, expect_word};

// A job line that is being read: what is left of its text, the circuit whose lines it may name, and the kind that was chosen,
// if one was.
#[derive(Drop)]
pub struct JobReader<'a> {
    pub lexer: Lexer<'a>,
    pub circuit: &'a Circuit,
    pub chosen: Option<Kind>,
}

impl JobReader<'_> {
    // A kind job, after its head.
    fn kind(&mut self) -> Result<Job, Refusal>
        ensures leads { Leads (at kind_word self.old) result (λ j. at (line_close j) self.new) }
        ensures turn { IfOk result (InTurn None) }
    {
        let kind = expect_word(self.lexer.next_token())?.named()?;
        Ok(Job::Kind { kind })
    }

    // The line of the name that is due.
    fn fault_line(&mut self) -> Result<usize, Refusal>
        ensures { (k : Kind) → Leads (at (fault_name k) self.old) result (λ line. at (fault_numbers k line) self.new) }
    {
        let PlacedWord { bytes, place } = expect_word(self.lexer.next_token())?;
        let line = self
            .circuit
            .line_named(bytes)
            .ok_or(CircuitRefusal::UnknownName { place })?;
        Ok(line)
    }

    // The number that is due.
    fn number(&mut self) -> Result<usize, Refusal>
        ensures { (after : ℕ → Due) → Leads (at (number after) self.old) result (λ n. at (after n) self.new) }
    {
        expect_number(self.lexer.next_token())
    }

    // A fault job, after its head.
    fn fault(&mut self, kind: Kind) -> Result<Job, Refusal>
        ensures leads { Leads (at (fault_name kind) self.old) result (λ j. at (line_close j) self.new) }
        ensures turn { IfOk result (InTurn (Some kind)) }
    {
        let line = self.fault_line()?;
        let pin = self.number()?;
        let level = self.number()?;
        let fault = StuckAt { line, pin, level };
        Ok(Job::Fault { kind, fault })
    }

    // A job that looks for a test, after its head.
    fn search(&mut self, kind: Kind) -> Result<Job, Refusal>
        ensures leads { Leads (at (search_numbers kind) self.old) result (λ j. at (line_close j) self.new) }
        ensures turn { IfOk result (InTurn (Some kind)) }
    {
        let number = self.number()?;
        let budget = self.number()?;
        Ok(Job::Search {
            kind,
            number,
            budget,
        })
    }

    // A job that covers, after its head.
    fn cover(&mut self, kind: Kind) -> Result<Job, Refusal>
        ensures leads { Leads (at (cover_number kind) self.old) result (λ j. at (line_close j) self.new) }
        ensures turn { IfOk result (InTurn (Some kind)) }
    {
        let number = self.number()?;
        Ok(Job::Cover { kind, number })
    }

    // The job, from its head to before its closing bracket. The kind comes first, and once.
    pub fn job(&mut self) -> Result<Job, Refusal>
        ensures leads { Leads (at job_head self.old) result (λ j. at (line_close j) self.new) }
        ensures turn { IfOk result (InTurn self.old.chosen) }
    {
        let word = expect_word(self.lexer.next_token())?;
        match (word.named()?, self.chosen) {
            (Head::Kind, None) => self.kind(),
            (Head::Fault, Some(kind)) => self.fault(kind),
            (Head::Search, Some(kind)) => self.search(kind),
            (Head::Cover, Some(kind)) => self.cover(kind),
            (Head::List, Some(_)) => Ok(Job::List),
            (Head::Kind, Some(_)) | (_, None) => {
                let place = word.place;
                Err(FormRefusal::Misplaced { place }.into())
            }
        }
    }

    // The closing bracket of a job line, and the end of the line: the place where the next line begins.
    pub fn line_rest(&mut self) -> Result<usize, Refusal>
        ensures { (job : JobModel) → Leads (at (line_close job) self.old) result (λ next. Asked job next) }
    {
        expect_mark(self.lexer.next_token(), Mark::Closing)?;
        self.lexer.line_end()
    }
}
