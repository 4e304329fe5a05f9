//! The document of a history.
ghost use Rattle.std.specs.Prelude.{◌≡◌, ◌≤◌, ◌++◌, IfOk, OnOk, map, codes, length, string_bytes};
ghost use Rattle.std.specs.List.{flat_map};
ghost use Rattle.schemas.specs.Dated.{IsShaped};
ghost use Rattle.history_reader.specs.Meaning.{MeansHistory, longest_document};
ghost use Rattle.history_toml.specs.Layout.{array_text, release_line, row_text, history_text};
ghost use Rattle.history_toml.specs.Texts.{TellsHistory, IsReadBack};

use crate::entry::Entry;
use crate::text::{push_quoted, push_row};
use basis::Memory;
use minor_version::{Minor, Text};
use schemas::History;
use std::alloc::Global;

fn push_release(
    alloc: Global,
    text: &mut String,
    name: &str,
    release: Option<Minor>,
) -> Result<(), Memory>
    ensures { OnOk result
        (string_bytes text.new ≡ string_bytes text.old ++ release_line name.now release) }
{
    let Some(release) = release else {
        return Ok(());
    };
    let release = release.text(alloc)?;
    text.push_str(name)?;
    text.push_str(" = ")?;
    push_quoted(alloc, text, release.as_str())?;
    text.push_str("\n")?;
    Ok(())
}

fn push_entry<E: Entry>(alloc: Global, text: &mut String, entry: &E) -> Result<(), Memory>
    ensures { OnOk result
        (string_bytes text.new ≡ string_bytes text.old
        ++ (codes " " ++ (row_text (E.pairs entry.now) ++ codes ",\n"))) }
{
    let row = entry.to_row(alloc)?;
    text.push_str(" ")?;
    push_row(alloc, text, row.as_slice())?;
    text.push_str(",\n")?;
    Ok(())
}

fn push_entries<E: Entry>(alloc: Global, text: &mut String, entries: &[E]) -> Result<(), Memory>
    ensures { OnOk result
        (string_bytes text.new ≡ string_bytes text.old
        ++ flat_map (λ row. codes " " ++ (row_text row ++ codes ",\n")) (map E.pairs entries.now)) }
{
    for entry in entries {
        push_entry(alloc, text, entry)?;
    }
    Ok(())
}

fn push_array<E: Entry>(
    alloc: Global,
    text: &mut String,
    name: &str,
    entries: &[E],
) -> Result<(), Memory>
    ensures { OnOk result
        (string_bytes text.new ≡ string_bytes text.old ++ array_text name.now (map E.pairs entries.now)) }
{
    text.push_str(name)?;
    text.push_str(" = [\n")?;
    push_entries(alloc, text, entries)?;
    text.push_str("]\n")?;
    Ok(())
}

fn document_of(alloc: Global, h: &History) -> Result<String, Memory>
    ensures written { IfOk result (λ s. string_bytes s ≡ history_text h.now) }
    ensures shaped { IsShaped h.now }
{
    let mut text = String::new(alloc);
    push_release(alloc, &mut text, "first", h.first)?;
    push_release(alloc, &mut text, "last", h.last)?;
    push_array(alloc, &mut text, "gate", h.gates.items())?;
    push_array(alloc, &mut text, "api", h.apis.items())?;
    push_array(alloc, &mut text, "field", h.fields.items())?;
    push_array(alloc, &mut text, "spell", h.spells.items())?;
    Ok(text)
}

/// The document of a history (TOML 1.1), from which `read_history` reads the same history, if it has at most 1,048,576
/// bytes: the releases, and then an array for each kind of entry, with a line for each entry, in the history's order. A
/// member that has its default is left out.
///
/// Errors: want of memory.
pub fn to_toml(alloc: Global, h: &History) -> Result<Text, Memory>
    ensures written { IfOk result (λ t. t ≡ history_text h.now) }
    ensures tells { IfOk result (λ t. TellsHistory t h.now) }
    ensures document { IfOk result (λ t. length t ≤ longest_document → MeansHistory t h.now) }
    ensures read_back { IfOk result (λ t. IsReadBack t h.now) }
{
    let text = document_of(alloc, h)?;
    Text::from_str(alloc, text.as_str())
}
