// The work row of a session: a place for the value of each line, under the kind that was chosen.
ghost use Rattle.std.specs.Prelude.{◌≡◌, MatchResult, vec_len};
ghost use Rattle.refusals.specs.declared.cause.Refusal.TheVariants.{Memory};
ghost use Rattle.simulator.specs.Callers.{SocketStaysEmpty};
ghost use Rattle.law.specs.Histories.{event_of, Step};
ghost use Rattle.law.specs.Sound.{EntriesStay, KeepsLaw};
ghost use Rattle.session.specs.Kinds.{kind_of};
ghost use Rattle.session.specs.Works.{work_kind, place_count};

use folder::Folder;
use jobs::Kind;
use law::{Call, Outcome, perform};
use refusals::Refusal;
use simulator::Socket;
use std::alloc::Global;
use values::five::Five;
use values::kind::ValueKind;
use values::nine::Nine;
use values::seven::Seven;

// The kinds are types, and a job line chooses one, so the rows of the three are three cases.
#[derive(Drop)]
pub enum Work {
    Five(Vec<Five>),
    Seven(Vec<Seven>),
    Nine(Vec<Nine>),
}

// A row of so many places.
fn row<V: ValueKind>(heap: Global, places: usize) -> Result<Vec<V>, Refusal>
    ensures { MatchResult result (λ row. vec_len row ≡ places) (λ e. e ≡ Memory) }
{
    Ok(vec![in heap; V::unknown(); places]?)
}

impl Work {
    // A row of so many places, under that kind.
    pub fn new(heap: Global, kind: Kind, places: usize) -> Result<Work, Refusal>
        ensures { MatchResult result (λ w. (work_kind w ≡ kind) × (place_count w ≡ places)) (λ e. e ≡ Memory) }
    {
        match kind {
            Kind::Five => Ok(Work::Five(row(heap, places)?)),
            Kind::Seven => Ok(Work::Seven(row(heap, places)?)),
            Kind::Nine => Ok(Work::Nine(row(heap, places)?)),
        }
    }

    // The kind of the row.
    pub fn kind(&self) -> Kind
        ensures { result ≡ work_kind self.now }
    {
        match self {
            Work::Five(_) => Kind::Five,
            Work::Seven(_) => Kind::Seven,
            Work::Nine(_) => Kind::Nine,
        }
    }

    // Performs a call on the folder, in the row and under its kind.
    pub fn perform(
        &mut self,
        folder: &mut Folder,
        call: Call,
        socket: &mut Socket,
    ) -> Result<Outcome, Refusal>
        ensures step { Step (kind_of (work_kind self.old)) folder.old.circuit (event_of call (place_count self.old) result) folder.old.table folder.new.table }
        ensures law { KeepsLaw (kind_of (work_kind self.old)) folder.old (event_of call (place_count self.old) result) folder.new }
        ensures settled { EntriesStay folder.old.table folder.new.table }
        ensures circuit { folder.new.circuit ≡ folder.old.circuit }
        ensures socket { SocketStaysEmpty result socket.old socket.new }
        ensures kind { work_kind self.new ≡ work_kind self.old }
        ensures places { place_count self.new ≡ place_count self.old }
    {
        match self {
            Work::Five(row) => perform(folder, call, socket, row),
            Work::Seven(row) => perform(folder, call, socket, row),
            Work::Nine(row) => perform(folder, call, socket, row),
        }
    }
}
