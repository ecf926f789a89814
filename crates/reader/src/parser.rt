// A text that is being read, and the tables read so far.
ghost use Rattle.std.specs.Prelude.{◌≤◌, vec_len};

use circuit::Tables;
use std::alloc::Global;
use words::Lexer;

#[derive(Drop)]
pub struct Parser<'a> {
    pub lexer: Lexer<'a>,
    pub tables: Tables,
    pub heap: Global,
    ghost inputs: { vec_len tables.inputs ≤ 64 },
    ghost gates: { vec_len tables.gates ≤ 512 },
}
