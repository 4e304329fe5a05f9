ghost use Rattle.std.specs.Prelude.{◌≡◌, List, IfOk};
ghost use Rattle.history_toml.specs.Rows.{row_pairs};
ghost use Rattle.history_toml.specs.Tables.{Pair};

use crate::members::Row;
use basis::Memory;
use std::alloc::Global;

/// An entry that is written as a table.
pub trait Entry {
    ghost pairs: { Self → List Pair };

    /// The members of the entry's table, in order.
    fn to_row(&self, alloc: Global) -> Result<Row, Memory>
        ensures { IfOk result (λ row. row_pairs row ≡ pairs self.now) };
}
