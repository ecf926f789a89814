// A history that is known beforehand.
ghost use Rattle.law.specs.KnownHistory.{KnownHistory};

// Runs nothing: its contract is a theorem that the crate owes. A history of calls, granted, refused and lacking memory, leads to a
// table with an entry in each state, so that the law is not said of nothing.
pub fn known_history()
    ensures { KnownHistory }
{}
