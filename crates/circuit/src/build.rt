// How circuits come to be.
ghost use Rattle.std.specs.Prelude.{◌≡◌, true, false, IfOk, MatchResult};
ghost use Rattle.circuit.specs.Model.{blank};
ghost use Rattle.circuit.specs.Lawful.{lawful};
ghost use Rattle.circuit.specs.Tables.{tables_model};

use crate::circuit::Circuit;
use crate::name::Name;
use crate::tables::Tables;
use std::alloc::{AllocError, Global};

impl Circuit {
    // The circuit of tables that keep the rules; tables that do not are handed back.
    pub fn new(tables: Tables) -> Result<Circuit, Tables>
        ensures { MatchResult result (λ c. (lawful (tables_model tables) ≡ true) × (c ≡ tables_model tables)) (λ t. (lawful (tables_model tables) ≡ false) × (t ≡ tables)) }
    {
        if tables.is_lawful() {
            Ok(Circuit { tables })
        } else {
            Err(tables)
        }
    }

    // The blank circuit: its only line is the input `a`, and that line is the output.
    pub fn blank(heap: Global) -> Result<Circuit, AllocError>
        ensures { IfOk result (λ c. c ≡ blank) }
    {
        let inputs = vec![in heap; Name::a(heap)?]?;
        let outputs = vec![in heap; 0]?;
        let gates = Vec::new(heap);
        Ok(Circuit {
            tables: Tables {
                inputs,
                gates,
                outputs,
            },
        })
    }

    // Turns into the blank circuit, which takes no memory.
    pub fn clear(&mut self)
        ensures { self.new ≡ blank }
    {
        self.tables.inputs.truncate(1);
        self.tables.inputs[0].become_a();
        self.tables.gates.clear();
        self.tables.outputs.truncate(1);
        self.tables.outputs[0] = 0;
    }
}
