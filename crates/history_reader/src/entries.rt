//! The entries of an array in which there is no fault.
ghost use Rattle.std.specs.Prelude.{List, IfOk};
ghost use Rattle.std.specs.List.{AllByRecursion, AllZip};
ghost use Rattle.toml.specs.Data.{Members};
ghost use Rattle.toml.specs.View.{table_view, items_view};
ghost use Rattle.history_reader.specs.Tree.{tables_in};
ghost use Rattle.history_reader.specs.Demands.{AreTables};
ghost use Rattle.history_reader.specs.Rows.{Row as TheRow};
ghost use Rattle.history_reader.specs.Tests.{MeetsRows};

use crate::tree::table_of;
use basis::{Memory, Sequence};
use std::alloc::Global;
use toml::{Table, Value};

/// An entry that is made of its table.
pub trait Entry: Drop {
    ghost rows: { Members → List TheRow };

    ghost is_entry: { Members → Self → Type 0 };

    ghost is_shaped: { Self → Type 0 };

    /// The entry that a table is whose members hold what the rows demand.
    fn from_table(alloc: Global, table: &Table) -> Result<Self, Memory>
        requires { MeetsRows (rows (table_view table.now)) (table_view table.now) }
        ensures ok { IfOk result (is_entry (table_view table.now)) }
        ensures shaped { IfOk result is_shaped };
}

/// The entries of an array of such tables, in order.
pub fn entries_of<E: Entry>(alloc: Global, items: &[Value]) -> Result<Sequence<E>, Memory>
    requires tables { AreTables (items_view items.now) }
    requires met { AllByRecursion (λ t. MeetsRows (E.rows t) t) (tables_in (items_view items.now)) }
    ensures ok { IfOk result (AllZip E.is_entry (tables_in (items_view items.now))) }
    ensures shaped { IfOk result (AllByRecursion E.is_shaped) }
{
    let mut entries = Sequence::new();
    for value in items {
        match E::from_table(alloc, table_of(value)) {
            Ok(entry) => match entries.push(alloc, entry) {
                Ok(()) => {}
                Err(fault) => return Err(fault),
            },
            Err(fault) => return Err(fault),
        }
    }
    Ok(entries)
}
