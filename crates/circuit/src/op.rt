// What a gate does with its operands.
ghost use Rattle.std.specs.Prelude.{◌≡◌, Some};
ghost use Rattle.circuit.specs.Ops.{op_word, Named, fewest_operands, most_operands};

use std::fmt;
use words::NoSuchName;

#[derive(Clone, Copy, Debug, PartialEq, Eq)]
pub enum Op {
    And,
    Nand,
    Or,
    Nor,
    Xor,
    Xnor,
    Not,
    Buf,
}

// The operator of that name.
impl TryFrom<&[u8]> for Op {
    type Error = NoSuchName;

    ghost try_from_gives = { λ word r. Named word.now r };

    fn try_from(word: &[u8]) -> Result<Op, NoSuchName> {
        match word {
            b"and" => Ok(Op::And),
            b"nand" => Ok(Op::Nand),
            b"or" => Ok(Op::Or),
            b"nor" => Ok(Op::Nor),
            b"xor" => Ok(Op::Xor),
            b"xnor" => Ok(Op::Xnor),
            b"not" => Ok(Op::Not),
            b"buf" => Ok(Op::Buf),
            _ => Err(NoSuchName),
        }
    }
}

// An operator's name.
impl fmt::Display for Op {
    ghost output = { λ op. Some (op_word op) };

    fn fmt<W: fmt::Write>(&self, f: &mut fmt::Formatter<W>) -> fmt::Result {
        f.write_str(match self {
            Op::And => "and",
            Op::Nand => "nand",
            Op::Or => "or",
            Op::Nor => "nor",
            Op::Xor => "xor",
            Op::Xnor => "xnor",
            Op::Not => "not",
            Op::Buf => "buf",
        })
    }
}

impl Op {
    // The fewest operands of such a gate.
    pub fn fewest(self) -> usize
        ensures { result ≡ fewest_operands self }
    {
        match self {
            Op::Not | Op::Buf => 1,
            _ => 2,
        }
    }

    // The most operands of such a gate.
    pub fn most(self) -> usize
        ensures { result ≡ most_operands self }
    {
        match self {
            Op::Not | Op::Buf => 1,
            _ => 8,
        }
    }
}
