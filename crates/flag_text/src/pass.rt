//! The pass over all pieces of a text, each by itself.
ghost use Rattle.std.specs.Prelude.{IfSome, IfNone, All};
ghost use Rattle.flag_text.specs.Passes.{HasBoolean, LacksBoolean, StopsAt};

use crate::last::said;
use crate::piece::Piece;
use crate::vocabulary::Vocabulary;

/// Why a piece is refused by itself.
#[derive(Clone, Copy, Debug, PartialEq, Eq)]
pub enum PairCause {
    /// There is no `=`.
    NoValue,
    /// The value is no boolean word.
    NoBoolean,
}

/// The first piece that is refused by itself: its place, and why.
#[derive(Clone, Copy, Debug)]
pub struct PairFault {
    pub place: u64,
    pub cause: PairCause,
}

fn pair_cause(vocabulary: Vocabulary, piece: &Piece<'_>) -> Option<PairCause>
    ensures some { IfSome result (LacksBoolean vocabulary piece.now) }
    ensures none { IfNone result (HasBoolean vocabulary piece.now) }
{
    if piece.value.is_none() {
        Some(PairCause::NoValue)
    } else if said(vocabulary, piece).is_none() {
        Some(PairCause::NoBoolean)
    } else {
        None
    }
}

/// The first piece that isn't a name and a boolean word of the vocabulary with a `=` between them.
pub fn first_pair_fault(vocabulary: Vocabulary, pieces: &[Piece<'_>]) -> Option<PairFault>
    ensures some { IfSome result (λ f. StopsAt (HasBoolean vocabulary)
        (λ p. LacksBoolean vocabulary p f.cause) pieces.now f.place) }
    ensures none { IfNone result (All (HasBoolean vocabulary) pieces.now) }
{
    for piece in pieces {
        if let Some(cause) = pair_cause(vocabulary, piece) {
            return Some(PairFault {
                place: piece.place,
                cause,
            });
        }
    }
    None
}
