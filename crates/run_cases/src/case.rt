//! A case, as its line tells it, and what it is of.

use basis::Memory;
use disk::FailList;
use example::WIDGETS;
use history_cut::cutoff;
use history_reader::read_history;
use history_rules::check;
use history_toml::to_toml;
use minor_version::{Blob, Text, parse_plain};
use std::alloc::Global;

/// The parts of a line: a name, the flags of the server, the settings of the case, and its script.
#[derive(Clone, Copy, Debug)]
pub struct Case<'a> {
    pub name: &'a str,
    pub flags: &'a str,
    pub settings: &'a str,
    pub script: &'a str,
}

fn part(text: &str) -> (&str, &str) {
    text.split_once(" | ").unwrap_or((text, ""))
}

/// The case of a line, whose parts are parted by bars.
pub fn case_of(line: &str) -> Case<'_> {
    let (name, rest) = part(line);
    let (flags, rest) = part(rest);
    let (settings, script) = part(rest);
    Case {
        name,
        flags,
        settings,
        script,
    }
}

/// What stands behind the setting's name, if it is there.
pub fn setting<'a>(settings: &'a str, name: &str) -> Option<&'a str> {
    for word in settings.split(' ') {
        if let Some(value) = word.strip_prefix(name) {
            return Some(value);
        }
    }
    None
}

/// The numbers of a setting, which are parted by commas.
fn numbers(alloc: Global, list: &str) -> Result<Vec<u64>, Memory> {
    let mut numbers = Vec::new(alloc);
    for word in list.split(',') {
        if let Ok(number) = word.parse::<u64>() {
            match numbers.push(number) {
                Ok(()) => {}
                Err(_) => return Err(Memory),
            }
        }
    }
    Ok(numbers)
}

/// The calls that fail, by their numbers.
pub fn failing(alloc: Global, settings: &str, name: &str) -> Result<FailList, Memory> {
    let list = setting(settings, name).unwrap_or("");
    let numbers = numbers(alloc, list)?;
    FailList::new(alloc, numbers.as_slice())
}

fn example_cut_at(alloc: Global, release: &str) -> Option<Text> {
    let history = read_history(alloc, WIDGETS.as_bytes()).ok()?;
    let accepted = check(alloc, history).ok()?;
    let cut = cutoff(alloc, &accepted, parse_plain(release.as_bytes())?).ok()?;
    to_toml(alloc, cut.history()).ok()
}

/// The bytes of the history: those of the example, or of the example cut at a release.
pub fn history(alloc: Global, settings: &str) -> Result<Blob, Memory> {
    let Some(release) = setting(settings, "cut=") else {
        return Blob::copy(alloc, WIDGETS.as_bytes());
    };
    match example_cut_at(alloc, release) {
        Some(text) => Blob::copy(alloc, text.bytes()),
        None => Blob::copy(alloc, b""),
    }
}

fn digit(letter: u8) -> u8 {
    match letter {
        b'0'..=b'9' => letter.wrapping_sub(b'0'),
        b'a'..=b'f' => letter.wrapping_sub(b'a').wrapping_add(10),
        _ => 0,
    }
}

/// The bytes that the digits write, two each.
pub fn bytes_of(alloc: Global, hex: &str) -> Result<Blob, Memory> {
    let mut bytes = Vec::new(alloc);
    let mut high = None;
    for letter in hex.as_bytes() {
        let low = digit(*letter);
        let Some(digit) = high else {
            high = Some(low);
            continue;
        };
        high = None;
        match bytes.push(digit.wrapping_mul(16).wrapping_add(low)) {
            Ok(()) => {}
            Err(_) => return Err(Memory),
        }
    }
    Blob::copy(alloc, bytes.as_slice())
}
