// What a simulator asks of the values that its lines carry.
ghost use Rattle.std.specs.Prelude.{◌≡◌, ◌≤◌, Decides};
ghost use Rattle.std.specs.Mem.{type_size};
ghost use Rattle.values.specs.Kind.{Kind, Lawful};
ghost use Rattle.values.specs.Pairs.{Pairs, shows, still};

// A value stands for the set of pairs of levels that it admits, good level before faulty level.
// No method refuses, and each answer's set is a function of the operands' sets. (Methods and no bounds `BitAnd`, `Not` and so on: what
// those promise is a ghost member of their own, which the trait would have to tie to `meaning` by one more law for each.)
pub trait ValueKind: Copy {
    // What the kind does to sets of pairs.
    ghost kind: { Kind };

    // The sets that the kind's values have.
    ghost family: { Pairs → Type 0 };

    // The pairs that a value admits.
    ghost meaning: { Self → Pairs };

    // The value of an input that is driven to a level: it admits that level twice, and no other pair.
    fn known(level: bool) -> Self
        ensures { meaning result ≡ kind.values.gates.known level };

    // The value of an input that is not driven.
    fn unknown() -> Self
        ensures { meaning result ≡ kind.unknown };

    // What a gate makes of its operands.
    fn not(self) -> Self
        ensures { meaning result ≡ kind.values.gates.negate (meaning self) };

    fn and(self, other: Self) -> Self
        ensures { meaning result ≡ kind.values.gates.both (meaning self) (meaning other) };

    fn or(self, other: Self) -> Self
        ensures { meaning result ≡ kind.values.gates.either (meaning self) (meaning other) };

    fn xor(self, other: Self) -> Self
        ensures { meaning result ≡ kind.values.gates.differ (meaning self) (meaning other) };

    // The value with its faulty level stuck.
    fn stick(self, level: bool) -> Self
        ensures { meaning result ≡ kind.values.stick level (meaning self) };

    // Does each admitted pair have unequal levels?
    fn shows(self) -> bool
        ensures { result ≡ shows (meaning self) };

    // Does each admitted pair have equal levels?
    fn still(self) -> bool
        ensures { result ≡ still (meaning self) };

    // Are the two one value?
    fn equals(self, other: Self) -> bool
        ensures { Decides result (self ≡ other) };

    // What each kind proves of its functions.
    ghost lawful: { Lawful kind family };

    // Each value admits a set of the family, which is never empty.
    ghost admitted: { (x : Self) → family (meaning x) };

    // A value takes few bytes, so that a row of them can be kept aside.
    ghost small: { type_size Self.row ≤ 64 };
}
