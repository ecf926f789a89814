// A folder, with what its calls work in: the socket of simulations, and the row of the kind that was chosen.
use crate::work::Work;
use folder::Folder;
use simulator::Socket;
use std::marker::Model;

#[derive(Drop)]
pub struct Session {
    pub(crate) folder: Folder,
    pub(crate) socket: Socket,
    pub(crate) work: Option<Work>,
}

// A contract sees a session as its folder and its kind. Between calls the socket is empty, and the row has a place for each line
// of the circuit.
impl Model for Session {
    ghost use Rattle.session.specs.Sessions.{Session as Described};

    ghost Value = { Described };

    ghost use Rattle.session.specs.Works.{chosen, Ready};

    ghost view = { λ s. record { folder = s.folder; kind = chosen s.work } };

    ghost invariant = { λ s. Ready s.folder.circuit s.socket s.work };
}
