ghost use Rattle.std.specs.Prelude.{◌≡◌, ◌≢◌, ◌↔◌, ◌≤◌, ◌<◌, ◌-◌, ℕ, IfOk, OnErr, IfSome, IsNone, IfNone};
ghost use Rattle.minor_version.specs.Release.{release_text, NamesRelease};
ghost use Rattle.minor_version.specs.Ranges.{floor_of};

use crate::decimal::small_number;
use crate::text::Text;
use basis::Memory;
use std::alloc::Global;
use std::error::Error;
use std::fmt;
use std::marker::Model;

/// A release, by the k of its minor version `1.k`. Contracts see the k.
#[derive(Clone, Copy, Debug, PartialEq, Eq, PartialOrd, Ord)]
pub struct Minor(u16);

impl Model for Minor {
    ghost use Rattle.std.specs.Prelude.{ℕ, ◌≤◌};

    ghost Value = { ℕ };

    ghost view = { λ m. m.0 };

    ghost invariant = { λ m. m.0 ≤ 999 };

    ghost inverse = { λ k. record { 0 = k } };
}

/// The text names no release.
#[derive(Clone, Copy, Debug, PartialEq, Eq)]
pub struct BadMinor;

impl fmt::Display for BadMinor {
    fn fmt<W: fmt::Write>(&self, f: &mut fmt::Formatter<W>) -> fmt::Result {
        f.write_str("not a version")
    }
}

impl Error for BadMinor {}

/// The release whose text `1.k` this is, the form of history documents.
pub fn parse_plain(text: &[u8]) -> Option<Minor>
    ensures some { IfSome result (λ m. text.now ≡ release_text m) }
    ensures bound { IfSome result (λ m. m ≤ 999) }
    ensures none { IfNone result ((k : ℕ) → k ≤ 999 → text.now ≢ release_text k) }
{
    match text {
        [b'1', b'.', digits @ ..] => match small_number(digits) {
            Some(k) => Some(Minor(k)),
            None => None,
        },
        _ => None,
    }
}

/// The release that a text names as `1.k`, `v1.k` or `kube=1.k`, the forms of version options.
pub fn parse(text: &[u8]) -> Result<Minor, BadMinor>
    ensures ok { IfOk result (NamesRelease text.now) }
    ensures bound { IfOk result (λ m. m ≤ 999) }
    ensures bad { OnErr result ((k : ℕ) → k ≤ 999 → ¬ NamesRelease text.now k) }
{
    let rest = match text {
        [b'v', rest @ ..] => rest,
        [b'k', b'u', b'b', b'e', b'=', rest @ ..] => rest,
        _ => text,
    };
    match parse_plain(rest) {
        Some(minor) => Ok(minor),
        None => Err(BadMinor),
    }
}

/// The release with the number k, if that is at most 999.
pub fn from_number(k: u16) -> Option<Minor>
    ensures none { IsNone result ↔ (999 < k) }
    ensures some { IfSome result (λ m. m ≡ k) }
{
    if k <= 999 { Some(Minor(k)) } else { None }
}

/// The lowest release that a binary emulates whose history goes from `first` to `last`.
pub fn floor(first: Minor, last: Minor) -> Minor
    ensures { result ≡ floor_of first last }
{
    first.max(last.back(3))
}

impl Minor {
    /// The k of `1.k`.
    pub fn number(self) -> u16
        ensures value { result ≡ self }
        ensures bound { result ≤ 999 }
    {
        self.0
    }

    /// The release n before this one, or 1.0 where there are fewer.
    pub fn back(self, n: u16) -> Minor
        ensures { result ≡ self - n }
    {
        Minor(self.0.saturating_sub(n))
    }

    /// The text `1.k`.
    pub fn text(self, alloc: Global) -> Result<Text, Memory>
        ensures { IfOk result (λ t. t ≡ release_text self) }
    {
        Text::from_minor(alloc, self.0)
    }
}
