// The listing of a folder.
ghost use Rattle.std.specs.Prelude.{◌≡◌, string_bytes, MatchResult};
ghost use Rattle.refusals.specs.declared.cause.Refusal.TheVariants.{Memory};
ghost use Rattle.replies.specs.Lines.{is_tested, listing};

use crate::entry_line::EntryLine;
use folder::{Folder, State};
use refusals::Refusal;
use std::alloc::Global;

// Whether an entry's fault is known to be detected.
fn is_tested(state: State) -> bool
    ensures { result ≡ is_tested state }
{
    matches!(
        state,
        State::Fewest { .. } | State::Covered { .. } | State::Spent { cube: Some(_), .. }
    )
}

// The line of each entry, and how many faults are known to be detected, of all.
pub fn listing(heap: Global, folder: &Folder) -> Result<String, Refusal>
    ensures { MatchResult result (λ t. string_bytes t ≡ listing folder.now.circuit folder.now.table) (λ e. e ≡ Memory) }
{
    let circuit = folder.circuit();
    let entries = folder.entries();
    let mut text = String::new(heap);
    for (number, entry) in entries.iter().enumerate() {
        let line = EntryLine {
            circuit,
            number,
            entry: *entry,
        };
        write!(text, "{line}")?;
    }
    let tested = entries
        .iter()
        .filter(|entry| is_tested(entry.state()))
        .count();
    let total = entries.len();
    writeln!(text, "(coverage {tested} {total})")?;
    Ok(text)
}
