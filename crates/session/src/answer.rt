// Answering a job line.
ghost use Rattle.std.specs.Prelude.{◌≡◌, [], ◌∷◌, is_ok, Some, None, MatchResult};
ghost use Rattle.refusals.specs.declared.cause.Refusal.TheVariants.{Memory};
ghost use Rattle.law.specs.Sound.{EntriesStay};
ghost use Rattle.jobs.specs.Reading.{InTurn};
ghost use Rattle.replies.specs.Replies.{reply_text};
ghost use Rattle.session.specs.Sessions.{with_kind, outcome_line, line_outcome};
ghost use Rattle.session.specs.Answers.{Performs, AnswersCall, Does, Answers, Forward, Keeps, call_event, job_events, line_events};

use crate::lines::line_after;
use crate::reply::Answer;
use crate::session::Session;
use crate::work::Work;
use folder::Folder;
use jobs::{Job, JobLine, Kind, read_job};
use law::{Call, Outcome};
use refusals::{Cause, Refusal};
use replies::Reply;
use replies::listing::listing;
use simulator::Socket;
use std::alloc::Global;

// The reply to a granted call; a cube is written for so many inputs.
fn reply_to(outcome: Outcome, inputs: usize) -> Reply
    ensures { reply_text result ≡ outcome_line inputs outcome }
{
    match outcome {
        Outcome::Entered { number } => Reply::Entered { number },
        Outcome::Searched { answer } => Reply::Searched { answer, inputs },
        Outcome::Covered { count } => Reply::Covered { count },
    }
}

impl Session {
    // No kind is chosen yet.
    pub fn new(folder: Folder) -> Session
        ensures { result ≡ record { folder = folder; kind = None } }
    {
        Session {
            folder,
            socket: Socket::new(),
            work: None,
        }
    }

    // The kind that was chosen, if one was.
    fn kind(&self) -> Option<Kind>
        ensures { result ≡ self.now.kind }
    {
        self.work.as_ref().map(Work::kind)
    }

    // Chooses the kind, and makes the row of it.
    fn choose(&mut self, heap: Global, kind: Kind) -> Result<(), Refusal>
        ensures { MatchResult result (λ _. self.new ≡ with_kind self.old kind) (λ e. (e ≡ Memory) × (self.new ≡ self.old)) }
    {
        let work = Work::new(heap, kind, self.folder.circuit().line_count())?;
        self.work = Some(work);
        Ok(())
    }

    // Performs a call on the folder, in the row of that kind. (There is one: a job that makes a call is read only once a kind was
    // chosen, and has that kind.)
    fn perform(&mut self, kind: Kind, call: Call) -> Result<Outcome, Refusal>
        requires { self.old.kind ≡ Some kind }
        ensures { Performs self.old kind call result self.new }
    {
        match &mut self.work {
            Some(work) if work.kind() == kind => {
                work.perform(&mut self.folder, call, &mut self.socket)
            }
            _ => unreachable!(),
        }
    }

    // Performs the call, or says why not; a refusal by the folder has the place of the job's line. (Kind and call stay two parameters:
    // the one is that of the row, the other goes to the folder.)
    fn answer_call(&mut self, place: usize, kind: Kind, call: Call) -> Result<Reply, Refusal>
        requires { self.old.kind ≡ Some kind }
        ensures answers { AnswersCall self.old place kind call result self.new }
        ensures keeps { Keeps self.old (call_event self.old kind call (is_ok result) ∷ []) self.new }
        ensures settled { EntriesStay self.old.folder.table self.new.folder.table }
    {
        match self.perform(kind, call) {
            Ok(outcome) => Ok(reply_to(outcome, self.folder.circuit().input_count())),
            Err(Refusal::Folder(refusal)) => Ok(Reply::Refused {
                cause: Cause {
                    place,
                    ..refusal.cause()
                },
            }),
            Err(other) => Err(other),
        }
    }

    // Does what the job asks for.
    fn answer_job(&mut self, heap: Global, place: usize, job: Job) -> Result<Reply, Refusal>
        requires { InTurn self.old.kind job }
        ensures answers { Does self.old place job result self.new }
        ensures keeps { Keeps self.old (job_events self.old job (is_ok result)) self.new }
        ensures settled { EntriesStay self.old.folder.table self.new.folder.table }
    {
        match job {
            Job::Kind { kind } => {
                self.choose(heap, kind)?;
                Ok(Reply::Kind { kind })
            }
            Job::Fault { kind, fault } => self.answer_call(place, kind, Call::Enter { fault }),
            Job::Search {
                kind,
                number,
                budget,
            } => self.answer_call(place, kind, Call::Search { number, budget }),
            Job::Cover { kind, number } => self.answer_call(place, kind, Call::Cover { number }),
            Job::List => {
                let text = listing(heap, &self.folder)?;
                Ok(Reply::Listing { text })
            }
        }
    }

    // Answers the job line that begins at that place of the text; nothing where only spaces are left. (Text and place are two
    // parameters: the text is one and the same for all lines, and the place comes back in each answer.)
    pub fn answer(
        &mut self,
        heap: Global,
        text: &[u8],
        place: usize,
    ) -> Result<Option<Answer>, Refusal>
        ensures answers { Answers self.old text.now place result self.new }
        ensures forward { Forward place result }
        ensures keeps { Keeps self.old (line_events self.old (line_outcome self.old text.now place) (is_ok result)) self.new }
        ensures settled { EntriesStay self.old.folder.table self.new.folder.table }
    {
        match read_job(text, place, self.folder.circuit(), self.kind()) {
            Ok(Some(JobLine { job, next })) => {
                let reply = self.answer_job(heap, place, job)?;
                Ok(Some(Answer { reply, next }))
            }
            Ok(None) => Ok(None),
            Err(refusal) => {
                let cause = refusal.cause().ok_or(refusal)?;
                let next = line_after(text, cause.place);
                let reply = Reply::Refused { cause };
                Ok(Some(Answer { reply, next }))
            }
        }
    }
}
