// How a try works out no more than what changes.
use simulator::Fanout;

// The gates that read each line, and the line from which on no output can be seen.
#[derive(Clone, Copy)]
pub(crate) struct Trace<'a> {
    pub(crate) fanout: &'a Fanout<'a>,
    pub(crate) end: usize,
}
