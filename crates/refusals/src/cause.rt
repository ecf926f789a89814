// A refusal of any layer, with the number, layer and place that it is reported by.
ghost use Rattle.std.specs.Prelude.{◌≡◌, Some};
ghost use Rattle.refusals.specs.Causes.{cause_of, layer_text, cause_text, refusal_text};
ghost use Rattle.refusals.specs.declared.cause.Refusal.TheVariants.{Text, Form, Circuit, Folder, Memory};

use crate::layers::{CircuitRefusal, FolderRefusal, FormRefusal, TextRefusal};
use std::alloc::{AllocError, AllocFailed};
use std::error::Error;
use std::fmt;
use std::fmt::Display;

// `Memory` is want of memory: it has no number.
#[derive(Clone, Copy, Debug, PartialEq, Eq)]
pub enum Refusal {
    Text(TextRefusal),
    Form(FormRefusal),
    Circuit(CircuitRefusal),
    Folder(FolderRefusal),
    Memory,
}

#[derive(Clone, Copy, Debug, PartialEq, Eq)]
pub enum Layer {
    Text,
    Form,
    Circuit,
    Folder,
}

// What a refusal is reported by.
#[derive(Clone, Copy, Debug, PartialEq, Eq)]
pub struct Cause {
    pub layer: Layer,
    pub number: u8,
    pub place: usize,
}

impl Refusal {
    // The layer, number and place of a refusal, or nothing for want of memory. A refusal of the folder layer has place 0.
    pub fn cause(&self) -> Option<Cause>
        ensures { result ≡ cause_of self.now }
    {
        match self {
            Refusal::Text(e) => Some(e.cause()),
            Refusal::Form(e) => Some(e.cause()),
            Refusal::Circuit(e) => Some(e.cause()),
            Refusal::Folder(e) => Some(e.cause()),
            Refusal::Memory => None,
        }
    }
}

// The conversions are written out, since a derived one has no contract, and the definitions say which case each makes.
impl From<TextRefusal> for Refusal {
    ghost from_gives = { λ e r. r ≡ Text e };

    fn from(e: TextRefusal) -> Refusal {
        Refusal::Text(e)
    }
}

impl From<FormRefusal> for Refusal {
    ghost from_gives = { λ e r. r ≡ Form e };

    fn from(e: FormRefusal) -> Refusal {
        Refusal::Form(e)
    }
}

impl From<CircuitRefusal> for Refusal {
    ghost from_gives = { λ e r. r ≡ Circuit e };

    fn from(e: CircuitRefusal) -> Refusal {
        Refusal::Circuit(e)
    }
}

impl From<FolderRefusal> for Refusal {
    ghost from_gives = { λ e r. r ≡ Folder e };

    fn from(e: FolderRefusal) -> Refusal {
        Refusal::Folder(e)
    }
}

impl From<AllocError> for Refusal {
    ghost from_gives = { λ _ r. r ≡ Memory };

    fn from(_e: AllocError) -> Refusal {
        Refusal::Memory
    }
}

impl<T: Drop> From<AllocFailed<T>> for Refusal {
    ghost from_gives = { λ _ r. r ≡ Memory };

    fn from(_e: AllocFailed<T>) -> Refusal {
        Refusal::Memory
    }
}

// A layer as it is written.
impl fmt::Display for Layer {
    ghost output = { λ l. Some (layer_text l) };

    fn fmt<W: fmt::Write>(&self, f: &mut fmt::Formatter<W>) -> fmt::Result {
        f.write_str(match self {
            Layer::Text => "text",
            Layer::Form => "form",
            Layer::Circuit => "circuit",
            Layer::Folder => "folder",
        })
    }
}

// The layer, the number and the place, with a space between each two.
impl fmt::Display for Cause {
    ghost output = { λ c. Some (cause_text c) };

    fn fmt<W: fmt::Write>(&self, f: &mut fmt::Formatter<W>) -> fmt::Result {
        let Cause {
            layer,
            number,
            place,
        } = self;
        write!(f, "{layer} {number} {place}")
    }
}

// A refusal as it is written: what it is reported by, or that memory ran out.
impl fmt::Display for Refusal {
    ghost output = { λ r. Some (refusal_text r) };

    fn fmt<W: fmt::Write>(&self, f: &mut fmt::Formatter<W>) -> fmt::Result {
        match self.cause() {
            Some(cause) => cause.fmt(f),
            None => f.write_str("out of memory"),
        }
    }
}

impl Error for Refusal {}
