// The numbers that a fault is asked for by. A circuit may lack such a line or pin, and a level above 1 is none.
#[derive(Clone, Copy, Debug, PartialEq, Eq)]
pub struct StuckAt {
    pub line: usize,
    pub pin: usize,
    pub level: usize,
}
