// The kind seven: a value knows the faulty level only where it knows the good level.
ghost use Rattle.values.specs.Seven.{seven, seven_meaning, seven_sets};
ghost use Rattle.values.specs.Made.{Among};
ghost use Rattle.values.specs.Laws.{seven_laws};
ghost use Rattle.std.proofs.Common.{rules, arith};

use crate::kind::ValueKind;

// The values of nine without those that know the faulty level alone, each with its written form.
#[derive(Clone, Copy, Debug, PartialEq, Eq)]
pub enum Seven {
    // 00: both levels are 0.
    Zero,
    // 11: both levels are 1.
    One,
    // 10: the good level is 1 and the faulty level 0, the D of the D-calculus.
    D,
    // 01: the good level is 0 and the faulty level 1.
    NotD,
    // 0x: the good level is 0, so the pairs 00 and 01.
    GoodZero,
    // 1x: the good level is 1, so the pairs 10 and 11.
    GoodOne,
    // xx: any of the four pairs.
    Unknown,
}

use Seven::{D, GoodOne, GoodZero, NotD, One, Unknown, Zero};

// What gates make of two values: a row for the left operand and a column for the right one, each in the order above.
static SEVEN_AND: [[Seven; 7]; 7] = [
    [Zero, Zero, Zero, Zero, Zero, Zero, Zero],
    [Zero, One, D, NotD, GoodZero, GoodOne, Unknown],
    [Zero, D, D, Zero, Zero, D, Unknown],
    [Zero, NotD, Zero, NotD, GoodZero, GoodZero, GoodZero],
    [Zero, GoodZero, Zero, GoodZero, GoodZero, GoodZero, GoodZero],
    [Zero, GoodOne, D, GoodZero, GoodZero, GoodOne, Unknown],
    [Zero, Unknown, Unknown, GoodZero, GoodZero, Unknown, Unknown],
];

static SEVEN_OR: [[Seven; 7]; 7] = [
    [Zero, One, D, NotD, GoodZero, GoodOne, Unknown],
    [One, One, One, One, One, One, One],
    [D, One, D, One, GoodOne, GoodOne, GoodOne],
    [NotD, One, One, NotD, NotD, One, Unknown],
    [GoodZero, One, GoodOne, NotD, GoodZero, GoodOne, Unknown],
    [GoodOne, One, GoodOne, One, GoodOne, GoodOne, GoodOne],
    [Unknown, One, GoodOne, Unknown, Unknown, GoodOne, Unknown],
];

static SEVEN_XOR: [[Seven; 7]; 7] = [
    [Zero, One, D, NotD, GoodZero, GoodOne, Unknown],
    [One, Zero, NotD, D, GoodOne, GoodZero, Unknown],
    [D, NotD, Zero, One, GoodOne, GoodZero, Unknown],
    [NotD, D, One, Zero, GoodZero, GoodOne, Unknown],
    [
        GoodZero, GoodOne, GoodOne, GoodZero, GoodZero, GoodOne, Unknown,
    ],
    [
        GoodOne, GoodZero, GoodZero, GoodOne, GoodOne, GoodZero, Unknown,
    ],
    [
        Unknown, Unknown, Unknown, Unknown, Unknown, Unknown, Unknown,
    ],
];

impl ValueKind for Seven {
    ghost kind = { seven };

    ghost family = { Among seven_sets };

    ghost meaning = { seven_meaning };

    ghost lawful = { seven_laws };

    ghost admitted = { Prim.search rules };

    ghost small = { omega arith };

    fn known(level: bool) -> Seven {
        if level { One } else { Zero }
    }

    fn unknown() -> Seven {
        Unknown
    }

    fn not(self) -> Seven {
        match self {
            Zero => One,
            One => Zero,
            D => NotD,
            NotD => D,
            GoodZero => GoodOne,
            GoodOne => GoodZero,
            Unknown => Unknown,
        }
    }

    fn and(self, other: Seven) -> Seven {
        SEVEN_AND[self as usize][other as usize]
    }

    fn or(self, other: Seven) -> Seven {
        SEVEN_OR[self as usize][other as usize]
    }

    fn xor(self, other: Seven) -> Seven {
        SEVEN_XOR[self as usize][other as usize]
    }

    fn stick(self, level: bool) -> Seven {
        match (self, level) {
            (Zero | NotD | GoodZero, false) => Zero,
            (Zero | NotD | GoodZero, true) => NotD,
            (One | D | GoodOne, false) => D,
            (One | D | GoodOne, true) => One,
            (Unknown, _) => Unknown,
        }
    }

    fn shows(self) -> bool {
        matches!(self, D | NotD)
    }

    fn still(self) -> bool {
        matches!(self, Zero | One)
    }

    fn equals(self, other: Seven) -> bool {
        self == other
    }
}
