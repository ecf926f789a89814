// The socket holds the fault that a simulation reads. A fault comes into it by a plug alone, and is gone when the plug goes.
ghost use Rattle.std.specs.Prelude.{◌≡◌, Some, None};

use faults::Fault;

#[derive(Drop)]
pub struct Socket {
    pub(crate) fault: Option<Fault>,
}

// A fault that stands in the socket. It borrows the socket, so no second fault can be plugged meanwhile; letting it go,
// by whichever way out of a scope, empties the socket.
pub struct Plug<'a> {
    socket: &'a mut Socket,
}

impl Drop for Plug<'_> {
    fn drop(self)
        ensures { self.exit.0.now.fault ≡ None }
    {
        self.socket.fault = None;
        let Plug { socket: _ } = self;
    }
}

impl Socket {
    // An empty socket.
    pub fn new() -> Socket
        ensures { result.fault ≡ None }
    {
        Socket { fault: None }
    }

    // The fault in the socket.
    pub fn fault(&self) -> Option<Fault>
        ensures { result ≡ self.now.fault }
    {
        self.fault
    }

    // Puts the fault into the socket, for as long as the plug stands.
    pub fn plug(&mut self, fault: Fault) -> Plug<'_>
        ensures same { result.socket.ghost_name ≡ self.entry.ghost_name }
        ensures holds { result.socket.now.fault ≡ Some fault }
    {
        self.fault = Some(fault);
        Plug { socket: self }
    }
}

impl Plug<'_> {
    // The socket, with the fault in it.
    pub fn socket(&self) -> &Socket
        ensures { result.now ≡ self.now.socket.now }
    {
        self.socket
    }

    // Ends the plugging here: the socket is empty again.
    pub fn unplug(self)
        ensures { self.exit.0.now.fault ≡ None }
    {
        drop(self);
    }
}
