// A circuit: tables that keep the rules. No circuit exists that breaks one.
use crate::tables::Tables;
use std::marker::Model;

#[derive(Drop)]
pub struct Circuit {
    pub(crate) tables: Tables,
}

// A contract sees a circuit as the definitions speak of it.
impl Model for Circuit {
    ghost use Rattle.std.specs.Prelude.{◌≡◌, true};
    ghost use Rattle.circuit.specs.Model.{Circuit as Described};

    ghost Value = { Described };

    ghost use Rattle.circuit.specs.Lawful.{lawful};
    ghost use Rattle.circuit.specs.Tables.{tables_model};

    ghost view = { λ c. tables_model c.tables };

    ghost invariant = { λ c. lawful (tables_model c.tables) ≡ true };
}
