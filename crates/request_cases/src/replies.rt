//! Replies, as lines show them.
use basis::Memory;
use http_front::{Page, Reply};
use minor_version::Text;
use std::alloc::Global;

fn note(text: &mut String, word: &str, value: &str) -> Result<(), Memory> {
    text.push_str(word)?;
    text.push_str(value)?;
    Ok(())
}

fn note_warning(text: &mut String, warning: &Option<Text>) -> Result<(), Memory> {
    match warning {
        Some(warning) => note(text, "|Warning: ", warning.as_str()),
        None => Ok(()),
    }
}

fn note_if(text: &mut String, there: bool, word: &str) -> Result<(), Memory> {
    if there { note(text, "|", word) } else { Ok(()) }
}

/// What stands before the body: the code, and what else the reply says, each behind a bar.
fn head(alloc: Global, reply: &Reply) -> Result<String, Memory> {
    let mut text = format!(in alloc; "{}", reply.code)?;
    note_if(&mut text, reply.page == Page::Metrics, "metrics")?;
    if !reply.allow.as_str().is_empty() {
        note(&mut text, "|Allow: ", reply.allow.as_str())?;
    }
    note_warning(&mut text, &reply.warning)?;
    note_if(&mut text, reply.bare, "bare")?;
    note_if(&mut text, reply.last, "last")?;
    Ok(text)
}

/// The body without the line feed at its end, with those within it shown.
fn body(alloc: Global, bytes: &[u8]) -> Result<String, Memory> {
    let text = str::from_utf8(bytes).unwrap_or("not UTF-8");
    let Some(text) = text.strip_suffix("\n") else {
        return Ok(format!(in alloc; "{text} without a line feed")?);
    };
    Ok(text.replace(alloc, "\n", "\\n")?)
}

/// The reply, whose parts are parted by bars.
pub fn text(alloc: Global, reply: &Reply) -> Result<String, Memory> {
    let mut text = head(alloc, reply)?;
    let body = body(alloc, reply.body.bytes())?;
    note(&mut text, "|", body.as_str())?;
    Ok(text)
}
