// The kind nine: a value knows the good level, the faulty level, both or neither.
ghost use Rattle.values.specs.Nine.{nine, nine_meaning, nine_sets};
ghost use Rattle.values.specs.Made.{Among};
ghost use Rattle.values.specs.Laws.{nine_laws};
ghost use Rattle.std.proofs.Common.{rules, arith};

use crate::kind::ValueKind;

// Each value with its written form, the good level before the faulty level.
#[derive(Clone, Copy, Debug, PartialEq, Eq)]
pub enum Nine {
    // 00: both levels are 0.
    Zero,
    // 11: both levels are 1.
    One,
    // 10: the good level is 1 and the faulty level 0, the D of the D-calculus.
    D,
    // 01: the good level is 0 and the faulty level 1.
    NotD,
    // 0x: the good level is 0, so the pairs 00 and 01.
    GoodZero,
    // 1x: the good level is 1, so the pairs 10 and 11.
    GoodOne,
    // x0: the faulty level is 0, so the pairs 00 and 10.
    FaultyZero,
    // x1: the faulty level is 1, so the pairs 01 and 11.
    FaultyOne,
    // xx: any of the four pairs.
    Unknown,
}

use Nine::{D, FaultyOne, FaultyZero, GoodOne, GoodZero, NotD, One, Unknown, Zero};

// What gates make of two values: a row for the left operand and a column for the right one, each in the order above.
static NINE_AND: [[Nine; 9]; 9] = [
    [Zero, Zero, Zero, Zero, Zero, Zero, Zero, Zero, Zero],
    [
        Zero, One, D, NotD, GoodZero, GoodOne, FaultyZero, FaultyOne, Unknown,
    ],
    [
        Zero, D, D, Zero, Zero, D, FaultyZero, FaultyZero, FaultyZero,
    ],
    [
        Zero, NotD, Zero, NotD, GoodZero, GoodZero, Zero, NotD, GoodZero,
    ],
    [
        Zero, GoodZero, Zero, GoodZero, GoodZero, GoodZero, Zero, GoodZero, GoodZero,
    ],
    [
        Zero, GoodOne, D, GoodZero, GoodZero, GoodOne, FaultyZero, Unknown, Unknown,
    ],
    [
        Zero, FaultyZero, FaultyZero, Zero, Zero, FaultyZero, FaultyZero, FaultyZero, FaultyZero,
    ],
    [
        Zero, FaultyOne, FaultyZero, NotD, GoodZero, Unknown, FaultyZero, FaultyOne, Unknown,
    ],
    [
        Zero, Unknown, FaultyZero, GoodZero, GoodZero, Unknown, FaultyZero, Unknown, Unknown,
    ],
];

static NINE_OR: [[Nine; 9]; 9] = [
    [
        Zero, One, D, NotD, GoodZero, GoodOne, FaultyZero, FaultyOne, Unknown,
    ],
    [One, One, One, One, One, One, One, One, One],
    [D, One, D, One, GoodOne, GoodOne, D, One, GoodOne],
    [
        NotD, One, One, NotD, NotD, One, FaultyOne, FaultyOne, FaultyOne,
    ],
    [
        GoodZero, One, GoodOne, NotD, GoodZero, GoodOne, Unknown, FaultyOne, Unknown,
    ],
    [
        GoodOne, One, GoodOne, One, GoodOne, GoodOne, GoodOne, One, GoodOne,
    ],
    [
        FaultyZero, One, D, FaultyOne, Unknown, GoodOne, FaultyZero, FaultyOne, Unknown,
    ],
    [
        FaultyOne, One, One, FaultyOne, FaultyOne, One, FaultyOne, FaultyOne, FaultyOne,
    ],
    [
        Unknown, One, GoodOne, FaultyOne, Unknown, GoodOne, Unknown, FaultyOne, Unknown,
    ],
];

static NINE_XOR: [[Nine; 9]; 9] = [
    [
        Zero, One, D, NotD, GoodZero, GoodOne, FaultyZero, FaultyOne, Unknown,
    ],
    [
        One, Zero, NotD, D, GoodOne, GoodZero, FaultyOne, FaultyZero, Unknown,
    ],
    [
        D, NotD, Zero, One, GoodOne, GoodZero, FaultyZero, FaultyOne, Unknown,
    ],
    [
        NotD, D, One, Zero, GoodZero, GoodOne, FaultyOne, FaultyZero, Unknown,
    ],
    [
        GoodZero, GoodOne, GoodOne, GoodZero, GoodZero, GoodOne, Unknown, Unknown, Unknown,
    ],
    [
        GoodOne, GoodZero, GoodZero, GoodOne, GoodOne, GoodZero, Unknown, Unknown, Unknown,
    ],
    [
        FaultyZero, FaultyOne, FaultyZero, FaultyOne, Unknown, Unknown, FaultyZero, FaultyOne,
        Unknown,
    ],
    [
        FaultyOne, FaultyZero, FaultyOne, FaultyZero, Unknown, Unknown, FaultyOne, FaultyZero,
        Unknown,
    ],
    [
        Unknown, Unknown, Unknown, Unknown, Unknown, Unknown, Unknown, Unknown, Unknown,
    ],
];

impl ValueKind for Nine {
    ghost kind = { nine };

    ghost family = { Among nine_sets };

    ghost meaning = { nine_meaning };

    ghost lawful = { nine_laws };

    ghost admitted = { Prim.search rules };

    ghost small = { omega arith };

    fn known(level: bool) -> Nine {
        if level { One } else { Zero }
    }

    fn unknown() -> Nine {
        Unknown
    }

    fn not(self) -> Nine {
        match self {
            Zero => One,
            One => Zero,
            D => NotD,
            NotD => D,
            GoodZero => GoodOne,
            GoodOne => GoodZero,
            FaultyZero => FaultyOne,
            FaultyOne => FaultyZero,
            Unknown => Unknown,
        }
    }

    fn and(self, other: Nine) -> Nine {
        NINE_AND[self as usize][other as usize]
    }

    fn or(self, other: Nine) -> Nine {
        NINE_OR[self as usize][other as usize]
    }

    fn xor(self, other: Nine) -> Nine {
        NINE_XOR[self as usize][other as usize]
    }

    fn stick(self, level: bool) -> Nine {
        match (self, level) {
            (Zero | NotD | GoodZero, false) => Zero,
            (Zero | NotD | GoodZero, true) => NotD,
            (One | D | GoodOne, false) => D,
            (One | D | GoodOne, true) => One,
            (FaultyZero | FaultyOne | Unknown, false) => FaultyZero,
            (FaultyZero | FaultyOne | Unknown, true) => FaultyOne,
        }
    }

    fn shows(self) -> bool {
        matches!(self, D | NotD)
    }

    fn still(self) -> bool {
        matches!(self, Zero | One)
    }

    fn equals(self, other: Nine) -> bool {
        self == other
    }
}
