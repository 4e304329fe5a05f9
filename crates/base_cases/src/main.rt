//! Cases of the crates below all others: a line of standard input is a question, and its answer a line of output.
#![tactic(auto)]

use basis::{Sequence, is_camel_word, is_dotted_labels, is_label, is_lower_word, is_pascal_word};
use minor_version::{Blob, Memory, Minor, Text, TextFault, floor, from_number, parse, parse_plain};
use std::alloc::Global;
use std::io;

/// The greatest length of a word in the cases of words, in bytes.
const LONGEST: usize = 8;

fn yes_or_no(holds: bool) -> &'static str {
    if holds { "yes" } else { "no" }
}

fn release_text(alloc: Global, release: Option<Minor>) -> Result<Text, Memory> {
    match release {
        Some(release) => release.text(alloc),
        None => Text::from_str(alloc, "none"),
    }
}

fn numbered(text: &str) -> Option<Minor> {
    from_number(text.parse::<u16>().ok()?)
}

/// The floor of a range that is given as two numbers.
fn floor_of(range: &str) -> Option<Minor> {
    let (first, last) = range.split_once(' ')?;
    Some(floor(numbered(first)?, numbered(last)?))
}

/// The release so many before another, which is given with their number.
fn earlier(pair: &str) -> Option<Minor> {
    let (release, count) = pair.split_once(' ')?;
    Some(numbered(release)?.back(count.parse::<u16>().ok()?))
}

/// What a copy of this one byte, as a text and as bytes, is.
fn copies(alloc: Global, byte: u8) -> Result<&'static str, Memory> {
    let bytes = [byte];
    if Blob::copy(alloc, &bytes)?.bytes() != bytes.as_slice() {
        return Ok("no copy");
    }
    match Text::copy(alloc, &bytes) {
        Ok(text) => Ok(if text.bytes() == bytes.as_slice() {
            "text"
        } else {
            "no copy"
        }),
        Err(TextFault::NotUtf8) => Ok("not UTF-8"),
        Err(TextFault::Memory) => Err(Memory),
    }
}

/// Which of two texts comes first.
fn earlier_text(alloc: Global, first: &str, second: &str) -> Result<Text, Memory> {
    let first = Text::from_str(alloc, first)?;
    let second = Text::from_str(alloc, second)?;
    if first < second {
        Ok(first)
    } else {
        second.duplicate(alloc)
    }
}

/// The last item of a list of the words.
fn last_of(alloc: Global, words: &str) -> Result<Text, Memory> {
    let mut list = Sequence::new();
    for word in words.split(' ') {
        list.push(alloc, word)?;
    }
    Text::from_str(alloc, list.items().last().copied().unwrap_or("none"))
}

fn words(text: &str) -> (&'static str, &'static str, &'static str) {
    let bytes = text.as_bytes();
    (
        yes_or_no(is_lower_word(bytes, LONGEST)),
        yes_or_no(is_camel_word(bytes, LONGEST)),
        yes_or_no(is_pascal_word(bytes, LONGEST)),
    )
}

fn answer(alloc: Global, question: &str, rest: &str) -> Result<Text, Memory> {
    let bytes = rest.as_bytes();
    match question {
        "label" => Text::from_str(alloc, yes_or_no(is_label(bytes))),
        "labels" => Text::from_str(alloc, yes_or_no(is_dotted_labels(bytes))),
        "lower" => Text::from_str(alloc, words(rest).0),
        "camel" => Text::from_str(alloc, words(rest).1),
        "pascal" => Text::from_str(alloc, words(rest).2),
        "release" => release_text(alloc, parse(bytes).ok()),
        "plain" => release_text(alloc, parse_plain(bytes)),
        "number" => release_text(alloc, numbered(rest)),
        "floor" => release_text(alloc, floor_of(rest)),
        "back" => release_text(alloc, earlier(rest)),
        "byte" => match rest.parse::<u8>() {
            Ok(byte) => Text::from_str(alloc, copies(alloc, byte)?),
            Err(_) => Text::from_str(alloc, "no byte"),
        },
        "first" => match rest.split_once(' ') {
            Some((first, second)) => earlier_text(alloc, first, second),
            None => Text::from_str(alloc, "no pair"),
        },
        "last" => last_of(alloc, rest),
        _ => Text::from_str(alloc, "no question"),
    }
}

fn main(rt: HostRuntime) -> anyhow::Result<()> {
    let alloc = rt.alloc();
    for line in rt.lines(rt.alloc()) {
        let line = line?;
        let line = line.as_str();
        let (question, rest) = line.split_once(' ').unwrap_or((line, ""));
        let answered = answer(alloc, question, rest)?;
        println!(rt; "{line}: {}", answered.as_str())?;
    }
    Ok(())
}
