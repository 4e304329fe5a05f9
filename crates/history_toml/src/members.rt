//! The members of a table.
ghost use Rattle.std.specs.Prelude.{◌≡◌, ◌++◌, [], ◌∷◌, OnOk};
ghost use Rattle.toml.specs.Data.{string, boolean};
ghost use Rattle.history_toml.specs.Rows.{data_of, row_pairs};
ghost use Rattle.history_toml.specs.Tables.{flag_pair, release_data};

use basis::Memory;
use minor_version::Minor;
use std::alloc::Global;

/// What a member holds.
#[derive(Debug, Drop)]
pub enum Scalar {
    Text(String),
    Number(i64),
    Flag(bool),
}

/// A member of a table. Its name needs no quotes.
#[derive(Debug, Drop)]
pub struct Member {
    pub name: &'static str,
    pub value: Scalar,
}

/// The members of a table, in the order in which they are written.
pub type Row = Vec<Member>;

/// Adds a member.
#[tactic(auto, using(crate::proofs::RowLemmas::pairs_pushed))]
pub fn put(row: &mut Row, name: &'static str, value: Scalar) -> Result<(), Memory>
    ensures { OnOk result (row_pairs row.new ≡ row_pairs row.old ++ (name.now, data_of value) ∷ []) }
{
    row.push(Member { name, value })?;
    Ok(())
}

/// Adds a member that is a text.
pub fn put_text(alloc: Global, row: &mut Row, name: &'static str, text: &str) -> Result<(), Memory>
    ensures { OnOk result (row_pairs row.new ≡ row_pairs row.old ++ (name.now, string text.now) ∷ []) }
{
    let text = String::from_str(alloc, text)?;
    put(row, name, Scalar::Text(text))
}

/// Adds a member that is a boolean.
pub fn put_boolean(row: &mut Row, name: &'static str, flag: bool) -> Result<(), Memory>
    ensures { OnOk result (row_pairs row.new ≡ row_pairs row.old ++ (name.now, boolean flag) ∷ []) }
{
    put(row, name, Scalar::Flag(flag))
}

/// Adds a member that is true, but none where the flag is false.
pub fn put_flag(row: &mut Row, name: &'static str, flag: bool) -> Result<(), Memory>
    ensures { OnOk result (row_pairs row.new ≡ row_pairs row.old ++ flag_pair name.now flag) }
{
    if flag {
        put_boolean(row, name, true)
    } else {
        Ok(())
    }
}

/// Adds a member that is the text of a release.
pub fn put_release(
    alloc: Global,
    row: &mut Row,
    name: &'static str,
    release: Minor,
) -> Result<(), Memory>
    ensures { OnOk result (row_pairs row.new ≡ row_pairs row.old ++ (name.now, release_data release) ∷ []) }
{
    let text = release.text(alloc)?;
    put_text(alloc, row, name, text.as_str())
}
