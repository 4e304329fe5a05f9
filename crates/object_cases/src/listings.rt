//! Words that are listed by names.
use basis::Memory;
use listing::{Listing, Parts, list_by, listed};
use std::alloc::{AllocError, Global};

// The name at which a word is listed: up to three parts, before what it says, as in `a/b/c=said`.
fn parts_of<'a>(word: &'a str) -> Parts<'a> {
    let (name, _) = word.split_once('=').unwrap_or((word, ""));
    let (a, rest) = name.split_once('/').unwrap_or((name, ""));
    let (b, c) = rest.split_once('/').unwrap_or((rest, ""));
    (a.as_bytes(), b.as_bytes(), c.as_bytes())
}

fn push_words(text: &mut String, words: &[&&str]) -> Result<(), AllocError> {
    for word in words {
        text.push_str(word)?;
        text.push_str(" ")?;
    }
    Ok(())
}

fn joined(alloc: Global, words: &[&&str]) -> Result<String, Memory> {
    let mut text = String::new(alloc);
    match push_words(&mut text, words) {
        Ok(()) => Ok(text),
        Err(_) => Err(Memory),
    }
}

fn joined_at<'a>(
    alloc: Global,
    listing: &Listing<'a, &'a str>,
    name: &'a str,
) -> Result<String, Memory> {
    let (a, b, c) = parts_of(name);
    match listed(listing, a, b, c) {
        Some(found) => joined(alloc, found.as_slice()),
        None => Ok(String::from_str(alloc, "none")?),
    }
}

fn joined_of<'a>(alloc: Global, words: &'a [&'a str], name: &'a str) -> Result<String, Memory> {
    match list_by(alloc, words, |word| parts_of(word)) {
        Ok(listing) => joined_at(alloc, &listing, name),
        Err(memory) => Err(memory),
    }
}

fn words_of<'a>(alloc: Global, words: &'a str) -> Result<Vec<&'a str>, AllocError> {
    words.split(' ').collect(alloc)
}

/// The words that are listed at the name, as in `a: a=1 b=2`.
pub(crate) fn listed_places(alloc: Global, rest: &str) -> Result<String, Memory> {
    let (name, words) = rest.split_once(": ").unwrap_or((rest, ""));
    match words_of(alloc, words) {
        Ok(words) => joined_of(alloc, words.as_slice(), name),
        Err(_) => Err(Memory),
    }
}
