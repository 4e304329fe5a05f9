//! The text of a table.
ghost use Rattle.std.specs.Prelude.{◌≡◌, ◌++◌, IfOk, OnOk, codes, string_bytes};
ghost use Rattle.std.specs.Fmt.{signed_decimal};
ghost use Rattle.std.specs.List.{flat_map};
ghost use Rattle.toml.specs.Data.{boolean};
ghost use Rattle.toml_writer.specs.Text.{string_text};
ghost use Rattle.history_toml.specs.Layout.{scalar_text, pair_text, row_text};
ghost use Rattle.history_toml.specs.Rows.{data_of, pair_of, pairs_of};

use crate::members::{Member, Scalar};
use basis::Memory;
use itoa::Buffer;
use std::alloc::Global;
use std::fmt::Formatter;
use toml_writer::write_string;

/// A text between its delimiters, in the first form that needs no escape.
fn quoted(alloc: Global, text: &str) -> Result<String, Memory>
    ensures { IfOk result (λ s. string_bytes s ≡ string_text text.now) }
{
    let mut f = Formatter::new(String::new(alloc));
    match write_string(&mut f, text) {
        Ok(()) => Ok(f.into_inner()),
        Err(_) => Err(Memory),
    }
}

/// Adds a text between its delimiters.
pub fn push_quoted(alloc: Global, text: &mut String, value: &str) -> Result<(), Memory>
    ensures { OnOk result (string_bytes text.new ≡ string_bytes text.old ++ string_text value.now) }
{
    let value = quoted(alloc, value)?;
    text.push_str(value.as_str())?;
    Ok(())
}

fn push_number(text: &mut String, number: i64) -> Result<(), Memory>
    ensures { OnOk result (string_bytes text.new ≡ string_bytes text.old ++ signed_decimal number) }
{
    let mut buffer = Buffer::new();
    text.push_str(buffer.format(number))?;
    Ok(())
}

fn flag_word(flag: bool) -> &'static str
    ensures { result.now ≡ scalar_text (boolean flag) }
{
    if flag { "true" } else { "false" }
}

fn push_scalar(alloc: Global, text: &mut String, value: &Scalar) -> Result<(), Memory>
    ensures { OnOk result
        (string_bytes text.new ≡ string_bytes text.old ++ scalar_text (data_of value.now)) }
{
    match value {
        Scalar::Text(value) => push_quoted(alloc, text, value.as_str()),
        Scalar::Number(number) => push_number(text, *number),
        Scalar::Flag(flag) => {
            text.push_str(flag_word(*flag))?;
            Ok(())
        }
    }
}

fn push_member(alloc: Global, text: &mut String, member: &Member) -> Result<(), Memory>
    ensures { OnOk result
        (string_bytes text.new ≡ string_bytes text.old ++ pair_text (pair_of member.now)) }
{
    text.push_str(member.name)?;
    text.push_str(" = ")?;
    push_scalar(alloc, text, &member.value)
}

/// Adds members that stand behind others.
fn push_more(alloc: Global, text: &mut String, members: &[Member]) -> Result<(), Memory>
    ensures { OnOk result
        (string_bytes text.new ≡ string_bytes text.old
        ++ flat_map (λ q. codes ", " ++ pair_text q) (pairs_of members.now)) }
{
    for member in members {
        text.push_str(", ")?;
        push_member(alloc, text, member)?;
    }
    Ok(())
}

/// Adds a table on one line.
pub fn push_row(alloc: Global, text: &mut String, row: &[Member]) -> Result<(), Memory>
    ensures { OnOk result
        (string_bytes text.new ≡ string_bytes text.old ++ row_text (pairs_of row.now)) }
{
    match row {
        [] => {
            text.push_str("{}")?;
            Ok(())
        }
        [first, rest @ ..] => {
            text.push_str("{ ")?;
            push_member(alloc, text, first)?;
            push_more(alloc, text, rest)?;
            text.push_str(" }")?;
            Ok(())
        }
    }
}
