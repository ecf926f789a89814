// The setting of a visit.
ghost use Rattle.std.specs.Prelude.{◌≡◌, ◌≤◌};
ghost use Rattle.circuit.specs.Model.{line_count};
ghost use Rattle.visit.specs.Traces.{Traces};

use crate::trace::Trace;
use circuit::Circuit;
use simulator::Socket;

// What a visit leaves as it is: the circuit, the socket with the fault, how many tries the visit may make, and the trace. Without one,
// each try works out every line. (The row, which each try writes, is no part: the contracts say of it alone what it holds.)
#[derive(Clone, Copy)]
pub(crate) struct Setting<'a> {
    pub(crate) circuit: &'a Circuit,
    // the circuit's, asked for once
    pub(crate) lines: usize,
    pub(crate) socket: &'a Socket,
    pub(crate) budget: usize,
    pub(crate) trace: Option<Trace<'a>>,
    ghost lines_are: { lines ≡ line_count circuit.now },
    ghost few: { lines ≤ 512 },
    ghost traces: { Traces circuit.now socket.now.fault trace },
}
