// The refusals of the four layers. A refusal of a text has the place of the word that failed: where that word begins,
// where the line feed stands, or how long the text is if it failed by ending. A refusal of a call without text has none.
// (Four tables: each is a `match` over the cases of its own enum, and only the making of a `Cause`, one expression, could be shared.)
ghost use Rattle.std.specs.Prelude.{◌≡◌, Some};
ghost use Rattle.refusals.specs.Causes.{text_cause, form_cause, circuit_cause, folder_cause, cause_text};

use crate::cause::{Cause, Layer};
use std::error::Error;
use std::fmt;
use std::fmt::Display;

// The bytes and words themselves.
#[derive(Clone, Copy, Debug, PartialEq, Eq)]
pub enum TextRefusal {
    // a byte that no text may have
    ForbiddenByte { place: usize },
    // a word of a shape that cannot stand where it stands
    MalformedWord { place: usize },
    // more brackets open together than allowed
    BracketsTooDeep { place: usize },
}

impl TextRefusal {
    // What it is reported by.
    pub fn cause(&self) -> Cause
        ensures { result ≡ text_cause self.now }
    {
        let (number, place) = match *self {
            TextRefusal::ForbiddenByte { place } => (1, place),
            TextRefusal::MalformedWord { place } => (2, place),
            TextRefusal::BracketsTooDeep { place } => (3, place),
        };
        Cause {
            layer: Layer::Text,
            number,
            place,
        }
    }
}

// The order in which words may stand.
#[derive(Clone, Copy, Debug, PartialEq, Eq)]
pub enum FormRefusal {
    // a bracket, a word or a line feed in a place that asks for another
    Misplaced { place: usize },
    // a head, an operator or a kind that does not exist
    UnknownWord { place: usize },
    // an operand too many, or a gate closed with too few
    WrongOperandCount { place: usize },
}

impl FormRefusal {
    // What it is reported by.
    pub fn cause(&self) -> Cause
        ensures { result ≡ form_cause self.now }
    {
        let (number, place) = match *self {
            FormRefusal::Misplaced { place } => (4, place),
            FormRefusal::UnknownWord { place } => (5, place),
            FormRefusal::WrongOperandCount { place } => (6, place),
        };
        Cause {
            layer: Layer::Form,
            number,
            place,
        }
    }
}

// What a text says of its circuit.
#[derive(Clone, Copy, Debug, PartialEq, Eq)]
pub enum CircuitRefusal {
    // a name that no line has
    UnknownName { place: usize },
    // a name that a line has already, or an output that was listed already
    NameTaken { place: usize },
    // more names, lines or bytes than allowed
    LimitPassed { place: usize },
    // no line is left, and none of those before was an outputs line
    EndsEarly { place: usize },
}

impl CircuitRefusal {
    // What it is reported by.
    pub fn cause(&self) -> Cause
        ensures { result ≡ circuit_cause self.now }
    {
        let (number, place) = match *self {
            CircuitRefusal::UnknownName { place } => (7, place),
            CircuitRefusal::NameTaken { place } => (8, place),
            CircuitRefusal::LimitPassed { place } => (9, place),
            CircuitRefusal::EndsEarly { place } => (10, place),
        };
        Cause {
            layer: Layer::Circuit,
            number,
            place,
        }
    }
}

// Faults and the folder of entries.
#[derive(Clone, Copy, Debug, PartialEq, Eq)]
pub enum FolderRefusal {
    NoSuchLine,
    NoSuchPin,
    LevelAboveOne,
    AlreadyEntered,
    FolderFull,
    NoSuchEntry,
    // the entry is fewest, redundant or covered
    EntrySettled,
    // fewer than 1 try, or more than 1,000,000
    BudgetOutOfRange,
    // the entry is spent, and the budget allows no more tries than were made
    BudgetNotAbove,
    // the work row has fewer places than the circuit has lines
    RowTooShort,
    EntryNotFewest,
    LevelNotDriven,
    // a cube drives an input that the circuit lacks
    InputMissing,
}

impl FolderRefusal {
    // What it is reported by, at place 0: a call without text has none.
    pub fn cause(&self) -> Cause
        ensures { result ≡ folder_cause self.now }
    {
        let number = match self {
            FolderRefusal::NoSuchLine => 11,
            FolderRefusal::NoSuchPin => 12,
            FolderRefusal::LevelAboveOne => 13,
            FolderRefusal::AlreadyEntered => 14,
            FolderRefusal::FolderFull => 15,
            FolderRefusal::NoSuchEntry => 16,
            FolderRefusal::EntrySettled => 17,
            FolderRefusal::BudgetOutOfRange => 18,
            FolderRefusal::BudgetNotAbove => 19,
            FolderRefusal::RowTooShort => 20,
            FolderRefusal::EntryNotFewest => 21,
            FolderRefusal::LevelNotDriven => 22,
            FolderRefusal::InputMissing => 23,
        };
        Cause {
            layer: Layer::Folder,
            number,
            place: 0,
        }
    }
}

// Written as what it is reported by. (Calls without text hand it to a program as it is; the other three reach one as a `Refusal`.)
impl fmt::Display for FolderRefusal {
    ghost output = { λ e. Some (cause_text (folder_cause e)) };

    fn fmt<W: fmt::Write>(&self, f: &mut fmt::Formatter<W>) -> fmt::Result {
        self.cause().fmt(f)
    }
}

impl Error for FolderRefusal {}
