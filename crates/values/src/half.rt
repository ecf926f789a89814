// What is known of one level, and what gates make of that.
ghost use Rattle.std.specs.Prelude.{◌≡◌};
ghost use Rattle.values.specs.Halves.{half_and, half_not, half_or, half_xor, level_half};

/// What is known of one level, the good one or the faulty one. A value that knows something of each of the two levels by itself
/// can be kept as two halves.
#[derive(Clone, Copy, Debug, PartialEq, Eq)]
pub enum Half {
    /// The level is 0.
    Zero,
    /// The level is 1.
    One,
    /// The level can be 0 or 1, written x.
    Unknown,
}

impl Half {
    /// Takes a known level, and gives its half: `Zero` or `One`.
    pub fn known(level: bool) -> Half
        ensures { result ≡ level_half level }
    {
        if level { Half::One } else { Half::Zero }
    }

    /// Takes what is known of a level, and gives what is known of its complement: 0 of 1, 1 of 0 and x of x.
    pub fn not(self) -> Half
        ensures { result ≡ half_not self }
    {
        match self {
            Half::Zero => Half::One,
            Half::One => Half::Zero,
            Half::Unknown => Half::Unknown,
        }
    }

    /// Takes what is known of two levels, and gives what is known of their conjunction: 0 as soon as one of them is 0, 1 where
    /// each is 1, and else x.
    pub fn and(self, other: Half) -> Half
        ensures { result ≡ half_and self other }
    {
        match (self, other) {
            (Half::Zero, _) | (_, Half::Zero) => Half::Zero,
            (Half::One, Half::One) => Half::One,
            _ => Half::Unknown,
        }
    }

    /// Takes what is known of two levels, and gives what is known of their disjunction: 1 if one of them is 1, 0 if both are 0,
    /// and else x.
    pub fn or(self, other: Half) -> Half
        ensures { result ≡ half_or self other }
    {
        match (self, other) {
            (Half::One, _) | (_, Half::One) => Half::One,
            (Half::Zero, Half::Zero) => Half::Zero,
            _ => Half::Unknown,
        }
    }

    /// Takes what is known of two levels, and gives what is known of whether they differ: x if one of them is x, and else 1 if
    /// just one of them is 1.
    pub fn xor(self, other: Half) -> Half
        ensures { result ≡ half_xor self other }
    {
        match (self, other) {
            (Half::Unknown, _) | (_, Half::Unknown) => Half::Unknown,
            (Half::One, half) => half.not(),
            (Half::Zero, half) => half,
        }
    }
}
