// The kind five: the five values of Roth's D-calculus, of which four know both levels and one knows nothing.
ghost use Rattle.values.specs.Five.{five, five_meaning, five_sets};
ghost use Rattle.values.specs.Made.{Among};
ghost use Rattle.values.specs.Laws.{five_laws};
ghost use Rattle.std.proofs.Common.{rules, arith};

use crate::kind::ValueKind;

#[derive(Clone, Copy, Debug, PartialEq, Eq)]
pub enum Five {
    // Both levels are 0.
    Zero,
    // Both levels are 1.
    One,
    // The good level is 1 and the faulty level 0: an error, written D in the calculus.
    D,
    // The good level is 0 and the faulty level 1.
    NotD,
    // Any of the four pairs.
    Unknown,
}

use Five::{D, NotD, One, Unknown, Zero};

// The D-calculus, a row for the left operand and a column for the right one, each in the order above. (By a table no branch hangs
// on the operands: a simulation meets them in no order that a processor could guess.)
static FIVE_AND: [[Five; 5]; 5] = [
    [Zero, Zero, Zero, Zero, Zero],
    [Zero, One, D, NotD, Unknown],
    [Zero, D, D, Zero, Unknown],
    [Zero, NotD, Zero, NotD, Unknown],
    [Zero, Unknown, Unknown, Unknown, Unknown],
];

static FIVE_OR: [[Five; 5]; 5] = [
    [Zero, One, D, NotD, Unknown],
    [One, One, One, One, One],
    [D, One, D, One, Unknown],
    [NotD, One, One, NotD, Unknown],
    [Unknown, One, Unknown, Unknown, Unknown],
];

static FIVE_XOR: [[Five; 5]; 5] = [
    [Zero, One, D, NotD, Unknown],
    [One, Zero, NotD, D, Unknown],
    [D, NotD, Zero, One, Unknown],
    [NotD, D, One, Zero, Unknown],
    [Unknown, Unknown, Unknown, Unknown, Unknown],
];

impl ValueKind for Five {
    ghost kind = { five };

    ghost family = { Among five_sets };

    ghost meaning = { five_meaning };

    ghost lawful = { five_laws };

    ghost admitted = { Prim.search rules };

    ghost small = { omega arith };

    fn known(level: bool) -> Five {
        if level { One } else { Zero }
    }

    fn unknown() -> Five {
        Unknown
    }

    fn not(self) -> Five {
        match self {
            Zero => One,
            One => Zero,
            D => NotD,
            NotD => D,
            Unknown => Unknown,
        }
    }

    fn and(self, other: Five) -> Five {
        FIVE_AND[self as usize][other as usize]
    }

    fn or(self, other: Five) -> Five {
        FIVE_OR[self as usize][other as usize]
    }

    fn xor(self, other: Five) -> Five {
        FIVE_XOR[self as usize][other as usize]
    }

    fn stick(self, level: bool) -> Five {
        match (self, level) {
            (Zero | NotD, false) => Zero,
            (Zero | NotD, true) => NotD,
            (One | D, false) => D,
            (One | D, true) => One,
            (Unknown, _) => Unknown,
        }
    }

    fn shows(self) -> bool {
        matches!(self, D | NotD)
    }

    fn still(self) -> bool {
        matches!(self, Zero | One)
    }

    fn equals(self, other: Five) -> bool {
        self == other
    }
}
