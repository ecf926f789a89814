// Answers that are known beforehand.
ghost use Rattle.visit.specs.KnownAnswers.{KnownAnswers};

// Runs nothing: its contract is a theorem that the crate owes. The definitions give each answer that is known
// beforehand, of values and of visits.
pub fn known_answers()
    ensures { KnownAnswers }
{}
