//! Cases of the streams in memory.

use crate::calls::{done_or_failed, number_at, push};
use basis::Memory;
use disk::FailList;
use minor_version::Blob;
use outside::{MemSink, MemSource, Sink, Source};
use std::alloc::Global;

// Two bytes, " one", " end" or " failed".
fn read_two(source: &mut MemSource, text: &mut String) -> Result<(), Memory> {
    let mut two = [0; 2];
    match source.read(&mut two) {
        Ok(0) => push(text, " end"),
        Ok(1) => push(text, " one"),
        Ok(_) => {
            push(text, " ")?;
            push(text, str::from_utf8(&two).unwrap_or("?"))
        }
        Err(_) => push(text, " failed"),
    }
}

fn read_four_times(source: &mut MemSource, text: &mut String) -> Result<(), Memory> {
    read_two(source, text)?;
    read_two(source, text)?;
    read_two(source, text)?;
    read_two(source, text)
}

fn told_by(alloc: Global, source: &mut MemSource) -> Result<String, Memory> {
    let mut text = String::new(alloc);
    match read_four_times(source, &mut text) {
        Ok(()) => Ok(text),
        Err(memory) => Err(memory),
    }
}

fn failing(alloc: Global, number: &str) -> Result<FailList, Memory> {
    FailList::new(alloc, &[number_at(number, 0)])
}

fn source_of(alloc: Global, fails: &str, bytes: &str) -> Result<MemSource, Memory> {
    let bytes = Blob::copy(alloc, bytes.as_bytes())?;
    let fail = failing(alloc, fails)?;
    Ok(MemSource::new(bytes, fail))
}

/// Four reads, of two bytes each, where the call with this number fails.
pub fn reads(alloc: Global, case: &str) -> Result<String, Memory> {
    let (fails, bytes) = case.split_once(' ').unwrap_or((case, ""));
    match source_of(alloc, fails, bytes) {
        Ok(mut source) => told_by(alloc, &mut source),
        Err(memory) => Err(memory),
    }
}

fn write_word(sink: &mut MemSink, word: &str, text: &mut String) -> Result<(), Memory> {
    push(text, done_or_failed(sink.write(word.as_bytes()).is_ok()))?;
    push(text, " ")
}

fn write_words(sink: &mut MemSink, words: &str, text: &mut String) -> Result<(), Memory> {
    for word in words.split(' ') {
        match write_word(sink, word, text) {
            Ok(()) => {}
            Err(memory) => return Err(memory),
        }
    }
    push(text, str::from_utf8(sink.written()).unwrap_or("?"))
}

fn told_to(alloc: Global, sink: &mut MemSink, words: &str) -> Result<String, Memory> {
    let mut text = String::new(alloc);
    match write_words(sink, words, &mut text) {
        Ok(()) => Ok(text),
        Err(memory) => Err(memory),
    }
}

/// A write for each word, where the call with this number fails, and what was written.
pub fn writes(alloc: Global, case: &str) -> Result<String, Memory> {
    let (fails, words) = case.split_once(' ').unwrap_or((case, ""));
    match failing(alloc, fails) {
        Ok(fail) => told_to(alloc, &mut MemSink::new(alloc, fail), words),
        Err(memory) => Err(memory),
    }
}
