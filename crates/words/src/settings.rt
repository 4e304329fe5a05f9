//! Words as settings.
ghost use Rattle.std.specs.Prelude.{◌≡◌, true, false, Some, None, IfOk, IfErr, IfSome, IfNone};
ghost use Rattle.words.specs.Settings.{texts_of, setting_of, settings_in, settings_of, has_equals, begins_with_dash, joined};

use crate::command::WordsFault;
use std::alloc::Global;

/// An option's name, with its dashes, and the value that it is given.
#[derive(Clone, Copy, Debug)]
pub struct Given<'a> {
    pub name: &'a str,
    pub value: &'a str,
}

/// The setting that a word `--name=value` is.
fn joined<'a>(word: &'a str) -> Option<Given<'a>>
    ensures some { IfSome result
        (λ s. (has_equals word.now ≡ true) × (setting_of s ≡ joined word.now)) }
    ensures none { IfNone result (has_equals word.now ≡ false) }
{
    match word.split_once('=') {
        Some((name, value)) => Some(Given { name, value }),
        None => None,
    }
}

fn begins_with_dash(word: &str) -> bool
    ensures { result ≡ begins_with_dash word.now }
{
    let bytes = word.as_bytes();
    !bytes.is_empty() && bytes[0] == b'-'
}

/// The settings that the words are.
pub fn read_settings<'a>(alloc: Global, words: &[&'a str]) -> Result<Vec<Given<'a>>, WordsFault>
    ensures ok { IfOk result
        (λ v. settings_of (texts_of words.now) ≡ Some (settings_in v.items)) }
    ensures usage { IfErr result
        (λ e. e ≡ WordsFault.Usage → settings_of (texts_of words.now) ≡ None) }
{
    let mut settings = Vec::new(alloc);
    let mut waiting = None;
    for word in words {
        let word = *word;
        let Some(name) = waiting else {
            let Some(setting) = joined(word) else {
                waiting = Some(word);
                continue;
            };
            let Ok(()) = settings.push(setting) else {
                return Err(WordsFault::Memory);
            };
            continue;
        };
        if begins_with_dash(word) {
            return Err(WordsFault::Usage);
        }
        let Ok(()) = settings.push(Given { name, value: word }) else {
            return Err(WordsFault::Memory);
        };
        waiting = None;
    }
    match waiting {
        None => Ok(settings),
        Some(_) => Err(WordsFault::Usage),
    }
}
