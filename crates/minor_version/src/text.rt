ghost use Rattle.std.specs.Prelude.{◌≡◌, ◌↔◌, IfOk, IsErrOf, codes, decimal, ◌++◌};
ghost use Rattle.std.specs.Str.{IsUtf8};

use basis::Memory;
use std::alloc::Global;
use std::cmp::Ordering;
use std::error::Error;
use std::fmt;
use std::marker::Model;

/// Why bytes became no text.
#[derive(Clone, Copy, Debug, PartialEq, Eq)]
pub enum TextFault {
    /// The bytes aren't UTF-8 (RFC 3629).
    NotUtf8,
    /// Memory ran out.
    Memory,
}

impl fmt::Display for TextFault {
    fn fmt<W: fmt::Write>(&self, f: &mut fmt::Formatter<W>) -> fmt::Result {
        f.write_str(match self {
            TextFault::NotUtf8 => "not UTF-8",
            TextFault::Memory => "out of memory",
        })
    }
}

impl Error for TextFault {}

/// A text in UTF-8, seen as the list of its bytes and ordered by them.
#[derive(Debug, Drop)]
pub struct Text {
    text: String,
}

impl Model for Text {
    ghost use Rattle.std.specs.Prelude.{List, ℕ, string_bytes};

    ghost Value = { List ℕ };

    ghost view = { λ t. string_bytes t.text };
}

impl Text {
    /// The text that the bytes are.
    pub fn copy(alloc: Global, bytes: &[u8]) -> Result<Self, TextFault>
        ensures ok { IfOk result (λ t. t ≡ bytes.now) }
        ensures not_utf8 { IsErrOf result TextFault.NotUtf8 ↔ ¬ IsUtf8 bytes.now }
    {
        let Ok(text) = str::from_utf8(bytes) else {
            return Err(TextFault::NotUtf8);
        };
        match Text::from_str(alloc, text) {
            Ok(text) => Ok(text),
            Err(_) => Err(TextFault::Memory),
        }
    }

    /// A copy of a `str`.
    pub fn from_str(alloc: Global, text: &str) -> Result<Self, Memory>
        ensures { IfOk result (λ t. t ≡ text.now) }
    {
        match String::from_str(alloc, text) {
            Ok(text) => Ok(Text { text }),
            Err(_) => Err(Memory),
        }
    }

    // The text `1.k`.
    pub(crate) fn from_minor(alloc: Global, k: u16) -> Result<Self, Memory>
        ensures { IfOk result (λ t. t ≡ codes "1." ++ decimal k) }
    {
        match format!(in alloc; "1.{k}") {
            Ok(text) => Ok(Text { text }),
            Err(_) => Err(Memory),
        }
    }

    /// A copy of the text.
    pub fn duplicate(&self, alloc: Global) -> Result<Self, Memory>
        ensures { IfOk result (λ t. t ≡ self.now) }
    {
        Text::from_str(alloc, self.text.as_str())
    }

    /// The text as a `str`.
    pub fn as_str(&self) -> &str
        ensures { result.now ≡ self.now }
    {
        self.text.as_str()
    }

    /// The bytes of the text.
    pub fn bytes(&self) -> &[u8]
        ensures { result.now ≡ self.now }
    {
        self.text.as_bytes()
    }
}

/// The bytes of a text are UTF-8 (RFC 3629).
pub fn text_is_utf8(text: &Text)
    ensures { IsUtf8 text.now }
{
    let _text = text.text.as_str();
}

impl PartialEq for Text {
    ghost use Rattle.std.proofs.Common.{rules};
    ghost use Rattle.std.specs.Cmp.Rules.{comparing};
    ghost use Rattle.std.specs.Str.{bytes_eq};

    ghost eq = { bytes_eq };

    ghost laws = { Prim.search (comparing, rules) };

    fn eq(&self, other: &Text) -> bool {
        self.text == other.text
    }
}

impl Eq for Text {
    ghost use Rattle.std.proofs.Common.{rules};
    ghost use Rattle.std.specs.Cmp.Rules.{comparing};

    ghost laws = { Prim.search (comparing, rules) };
}

impl Ord for Text {
    ghost use Rattle.std.proofs.Common.{rules};
    ghost use Rattle.std.specs.Cmp.Rules.{comparing};
    ghost use Rattle.std.specs.Cmp.Lexicographic.{slice_cmp};
    ghost use Rattle.std.specs.Ordering.{nat_cmp};

    ghost cmp = { slice_cmp nat_cmp };

    ghost total = { Prim.search (comparing, rules) };

    ghost matches_partial_cmp = { Prim.search (comparing, rules) };

    ghost matches_eq = { Prim.search (comparing, rules) };

    fn cmp(&self, other: &Text) -> Ordering {
        self.text.cmp(&other.text)
    }
}

impl PartialOrd for Text {
    ghost use Rattle.std.proofs.Common.{rules};
    ghost use Rattle.std.specs.Cmp.{partial_order_from_agreeing_total};
    ghost use Rattle.std.specs.Cmp.Rules.{comparing};
    ghost use Rattle.std.specs.Cmp.Lexicographic.{slice_cmp};
    ghost use Rattle.std.specs.Ordering.{nat_cmp, as_partial_cmp};

    ghost partial_cmp = { as_partial_cmp (slice_cmp nat_cmp) };

    ghost laws = { partial_order_from_agreeing_total (slice_cmp nat_cmp) (Prim.search (comparing, rules)) (Prim.search (comparing, rules)) (Prim.search (comparing, rules)) };

    fn partial_cmp(&self, other: &Text) -> Option<Ordering> {
        Some(self.cmp(other))
    }
}
