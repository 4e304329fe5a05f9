//! The first fault of a document.
ghost use Rattle.std.specs.Prelude.{◌≡◌, map, not, find, option_map, string_bytes, IfSome, IfNone};
ghost use Rattle.std.specs.List.{AllByRecursion};
ghost use Rattle.std.specs.BTreeMap.{keys};
ghost use Rattle.toml.specs.View.{table_view, items_view};
ghost use Rattle.history_reader.specs.Tree.{tables_in};
ghost use Rattle.history_reader.specs.Demands.{AreTables};
ghost use Rattle.history_reader.specs.Tests.{Passes, row_test, is_named, table_tests, entry_tests, document_tests};
ghost use Rattle.history_reader.specs.Faults.{IsFaultOf};
ghost use Rattle.history_reader.specs.TableRows.{rows_in};

use crate::demand::meets;
use crate::rows::{ENTRY_ARRAYS, Row, TableRows, rows_of_table};
use crate::tree::{items_of_array, table_of, value_of};
use schemas::Array;
use toml::{Table, Value};

/// A member that isn't as it must be: its array, the number of its entry from 1 (0 at the top), and its name.
#[derive(Clone, Copy, Debug)]
pub struct Fault<'a> {
    pub array: Array,
    pub index: u64,
    pub member: &'a str,
}

/// The first member, in the order of the rows, that doesn't hold what its row demands.
fn row_fault<'a>(array: Array, index: u64, rows: &[Row], table: &'a Table) -> Option<Fault<'a>>
    ensures some { IfSome result
        (IsFaultOf (map (row_test array index (table_view table.now)) rows.now)) }
    ensures none { IfNone result
        (AllByRecursion Passes (map (row_test array index (table_view table.now)) rows.now)) }
{
    for row in rows {
        let (member, demand) = *row;
        if !meets(demand, value_of(table, member)) {
            return Some(Fault {
                array,
                index,
                member: member.name(),
            });
        }
    }
    None
}

/// Whether a row is of the member with this name.
fn has_row(rows: &[Row], name: &str) -> bool
    ensures { result ≡ is_named rows.now name.now }
{
    rows.iter().any(|row| row.0.name() == name)
}

/// Whether a row of the table is of the member with this name.
fn is_member(rows: TableRows, name: &str) -> bool
    ensures { result ≡ is_named (rows_in rows) name.now }
{
    has_row(rows.common, name) || has_row(rows.own, name)
}

/// The first member, in byte order, that no row names.
fn unknown_member<'a>(rows: TableRows, table: &'a Table) -> Option<&'a str>
    ensures { option_map (λ s. s.now) result
        ≡ option_map string_bytes
        (find (λ k. not (is_named (rows_in rows) (string_bytes k))) (keys table.now)) }
{
    match table.keys().find(|key| !is_member(rows, key.as_str())) {
        Some(key) => Some(key.as_str()),
        None => None,
    }
}

/// The first member, in the order of the table's rows, that doesn't hold what its row demands.
fn known_fault<'a>(array: Array, index: u64, rows: TableRows, table: &'a Table) -> Option<Fault<'a>>
    ensures some { IfSome result
        (IsFaultOf (map (row_test array index (table_view table.now)) (rows_in rows))) }
    ensures none { IfNone result
        (AllByRecursion Passes (map (row_test array index (table_view table.now)) (rows_in rows))) }
{
    match row_fault(array, index, rows.common, table) {
        Some(fault) => Some(fault),
        None => row_fault(array, index, rows.own, table),
    }
}

/// The first fault of a table of the array, or of the document's own members.
fn table_fault<'a>(array: Array, index: u64, table: &'a Table) -> Option<Fault<'a>>
    ensures some { IfSome result (IsFaultOf (table_tests array index (table_view table.now))) }
    ensures none { IfNone result
        (AllByRecursion Passes (table_tests array index (table_view table.now))) }
{
    let rows = rows_of_table(array, table);
    match known_fault(array, index, rows, table) {
        Some(fault) => Some(fault),
        None => match unknown_member(rows, table) {
            Some(member) => Some(Fault {
                array,
                index,
                member,
            }),
            None => None,
        },
    }
}

/// The first fault of the entries of an array.
fn entry_fault<'a>(array: Array, items: &'a [Value]) -> Option<Fault<'a>>
    requires { AreTables (items_view items.now) }
    ensures some { IfSome result
        (IsFaultOf (entry_tests array (tables_in (items_view items.now)))) }
    ensures none { IfNone result
        (AllByRecursion Passes (entry_tests array (tables_in (items_view items.now)))) }
{
    for (i, value) in items.iter().enumerate() {
        if let Some(fault) = table_fault(array, i as u64 + 1, table_of(value)) {
            return Some(fault);
        }
    }
    None
}

/// The first fault of a document.
pub fn document_fault(table: &Table) -> Option<Fault<'_>>
    ensures some { IfSome result (IsFaultOf (document_tests (table_view table.now))) }
    ensures none { IfNone result (AllByRecursion Passes (document_tests (table_view table.now))) }
{
    if let Some(fault) = table_fault(Array::Top, 0, table) {
        return Some(fault);
    }
    for array in ENTRY_ARRAYS {
        if let Some(fault) = entry_fault(array, items_of_array(table, array)) {
            return Some(fault);
        }
    }
    None
}
