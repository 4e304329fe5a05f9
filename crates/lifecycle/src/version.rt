ghost use Rattle.std.specs.Prelude.{◌≡◌, ◌≢◌, ◌≤◌, ◌++◌, ℕ, true, false, IfSome, IfNone, decimal};
ghost use Rattle.std.specs.Str.{all_ascii_digits};
ghost use Rattle.lifecycle.specs.Digits.{begins_with_digit};
ghost use Rattle.lifecycle.specs.Version.{IsNumber, IsLevel, IsWord, level_text, word_text};
ghost use Rattle.lifecycle.specs.declared.version.Level.{Level as TheLevel};
ghost use Rattle.lifecycle.specs.declared.version.VersionWord.{VersionWord as TheWord};

use minor_version::small_number;
use std::cmp::Ordering;

/// How stable a version is: generally available, or the given beta or alpha.
#[derive(Clone, Copy, Debug, PartialEq, Eq)]
pub enum Level {
    Ga,
    Beta(u16),
    Alpha(u16),
}

/// A version word, as `v1` or `v1beta2`. The most stable is the least.
#[derive(Clone, Copy, Debug, PartialEq, Eq)]
pub struct VersionWord {
    pub major: u16,
    pub level: Level,
}

impl Ord for VersionWord {
    ghost use Rattle.std.proofs.Common.{rules};
    ghost use Rattle.std.specs.Cmp.Rules.{comparing};
    ghost use Rattle.lifecycle.specs.Stability.{by_stability};

    ghost cmp = { by_stability };

    ghost total = { Prim.search (comparing, rules) };

    ghost matches_partial_cmp = { Prim.search (comparing, rules) };

    ghost matches_eq = { Prim.search (comparing, rules) };

    fn cmp(&self, other: &VersionWord) -> Ordering {
        self.level
            .rank()
            .cmp(&other.level.rank())
            .then(other.major.cmp(&self.major))
            .then(other.level.number().cmp(&self.level.number()))
    }
}

impl PartialOrd for VersionWord {
    ghost use Rattle.std.proofs.Common.{rules};
    ghost use Rattle.std.specs.Cmp.{partial_order_from_agreeing_total};
    ghost use Rattle.std.specs.Cmp.Rules.{comparing};
    ghost use Rattle.std.specs.Ordering.{as_partial_cmp};
    ghost use Rattle.lifecycle.specs.Stability.{by_stability};

    ghost partial_cmp = { as_partial_cmp by_stability };

    ghost laws = { partial_order_from_agreeing_total by_stability (Prim.search (comparing, rules))
        (Prim.search (comparing, rules)) (Prim.search (comparing, rules)) };

    fn partial_cmp(&self, other: &VersionWord) -> Option<Ordering> {
        Some(self.cmp(other))
    }
}

impl Level {
    ghost use Rattle.lifecycle.specs.Stability.{rank_of, number_of};

    /// How far the level is from general availability: 0 for that, 1 for a beta, 2 for an alpha.
    pub fn rank(self) -> u8
        ensures { result ≡ rank_of self }
    {
        match self {
            Level::Ga => 0,
            Level::Beta(_) => 1,
            Level::Alpha(_) => 2,
        }
    }

    fn number(self) -> u16
        ensures { result ≡ number_of self }
    {
        match self {
            Level::Ga => 0,
            Level::Beta(number) | Level::Alpha(number) => number,
        }
    }
}

/// The digits that the text begins with, and the rest.
fn split_digits(text: &[u8]) -> (&[u8], &[u8])
    ensures joined { text.now ≡ result.0.now ++ result.1.now }
    ensures digits { all_ascii_digits result.0.now ≡ true }
    ensures stops { begins_with_digit result.1.now ≡ false }
{
    for (i, byte) in text.iter().enumerate() {
        if !byte.is_ascii_digit() {
            return text.split_at(i);
        }
    }
    text.split_at(text.len())
}

/// The number from 1 to 999 that the text writes in decimal.
fn positive(text: &[u8]) -> Option<u16>
    ensures some { IfSome result (λ n. IsNumber n × (text.now ≡ decimal n)) }
    ensures none { IfNone result ((n : ℕ) → IsNumber n → text.now ≢ decimal n) }
{
    match small_number(text) {
        Some(0) => None,
        Some(number) => Some(number),
        None => None,
    }
}

/// The level that stands behind a major number.
fn level_of(text: &[u8]) -> Option<Level>
    ensures some { IfSome result (λ l. IsLevel l × (text.now ≡ level_text l)) }
    ensures none { IfNone result ((l : TheLevel) → IsLevel l → text.now ≢ level_text l) }
{
    match text {
        [] => Some(Level::Ga),
        [b'b', b'e', b't', b'a', digits @ ..] => match positive(digits) {
            Some(number) => Some(Level::Beta(number)),
            None => None,
        },
        [b'a', b'l', b'p', b'h', b'a', digits @ ..] => match positive(digits) {
            Some(number) => Some(Level::Alpha(number)),
            None => None,
        },
        _ => None,
    }
}

/// The version word that the text is: `v<n>`, `v<n>beta<n>` or `v<n>alpha<n>`, with numbers from 1 to 999 without
/// leading zeros.
pub fn version_word(text: &[u8]) -> Option<VersionWord>
    ensures some { IfSome result (λ w. IsWord w × (text.now ≡ word_text w)) }
    ensures none { IfNone result ((w : TheWord) → IsWord w → text.now ≢ word_text w) }
{
    let [b'v', rest @ ..] = text else {
        return None;
    };
    let (digits, tail) = split_digits(rest);
    let Some(major) = positive(digits) else {
        return None;
    };
    let Some(level) = level_of(tail) else {
        return None;
    };
    Some(VersionWord { major, level })
}
