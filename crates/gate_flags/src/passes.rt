//! The two passes over the pieces of a text.
ghost use Rattle.std.specs.Prelude.{◌≡◌, ◌↔◌, ℕ, List, Bool, IsTrue, IfSome, IfNone, All};
ghost use Rattle.gate_spec.specs.declared.entry.GateEntry.{GateEntry as TheEntry};
ghost use Rattle.gate_spec.specs.Gates.{cutoff, IsSpecAt};
ghost use Rattle.flag_text.specs.Passes.{LacksBoolean};
ghost use Rattle.flag_text.specs.Pieces.{FlagPiece};
ghost use Rattle.flag_text.specs.Said.{said};
ghost use Rattle.flag_text.specs.declared.vocabulary.Vocabulary.TheVariants.{Go};
ghost use Rattle.gate_flags.specs.Lookups.{KnowsGates};
ghost use Rattle.gate_flags.specs.Flags.{IsAssignment, IsAllWord, IsAccepted, HasFault, IsRefused, IsFirstPassFault, IsSecondPassFault};

use crate::fault::{GateCause, GateFault};
use crate::known::{Known, spec_in};
use flag_text::{Name, PairCause, Piece, Vocabulary, first_pair_fault, said};
use gate_spec::SpecAt;
use std::collections::BTreeMap;

fn cause_named(cause: PairCause) -> GateCause
    ensures { (p : FlagPiece) → LacksBoolean Go p cause → HasFault p result }
{
    match cause {
        PairCause::NoValue => GateCause::Missing,
        PairCause::NoBoolean => GateCause::BadBool,
    }
}

/// The first piece that has a fault by itself.
pub fn first_fault(pieces: &[Piece<'_>]) -> Option<GateFault>
    ensures some { IfSome result (IsFirstPassFault pieces.now) }
    ensures none { IfNone result (All IsAssignment pieces.now) }
{
    match first_pair_fault(Vocabulary::Go, pieces) {
        Some(fault) => Some(GateFault::At {
            place: fault.place,
            cause: cause_named(fault.cause),
        }),
        None => None,
    }
}

fn is_all_word(name: &[u8]) -> bool
    ensures { IsTrue result ↔ IsAllWord name.now }
{
    matches!(name, b"AllAlpha" | b"AllBeta")
}

fn says(piece: &Piece<'_>, value: bool) -> bool
    ensures { IsTrue result ↔ (said Go piece.now ≡ Some value) }
{
    match said(Vocabulary::Go, piece) {
        Some(said) => said == value,
        None => false,
    }
}

// Why the release refuses the piece, by what it knows of the gate.
fn refusal(piece: &Piece<'_>, spec: SpecAt) -> Option<GateCause>
    ensures some { (entries : List TheEntry) (e : ℕ) → IsSpecAt entries piece.now.name e spec →
        IfSome result (IsRefused entries e piece.now) }
    ensures none { (entries : List TheEntry) (e : ℕ) → IsSpecAt entries piece.now.name e spec →
        IfNone result (IsAccepted (cutoff entries e) piece.now) }
{
    if is_all_word(piece.name) {
        return None;
    }
    match spec {
        SpecAt::Never => Some(GateCause::Unknown),
        SpecAt::Removed(_) => Some(GateCause::Unknown),
        SpecAt::PreAlpha => Some(GateCause::PreAlpha),
        SpecAt::Found {
            default,
            locked,
            ..
        } => {
            if locked && !says(piece, default) {
                Some(GateCause::Locked(default))
            } else {
                None
            }
        }
    }
}

/// The first of the last pieces that the release refuses.
pub fn first_refusal<'a>(
    known: &BTreeMap<Name<'a>, Known<'a>>,
    last: &[Piece<'a>],
) -> Option<GateFault>
    ensures some { (entries : List TheEntry) (e : ℕ) → KnowsGates entries e known.now →
        IfSome result (IsSecondPassFault entries e last.now) }
    ensures none { (entries : List TheEntry) (e : ℕ) → KnowsGates entries e known.now →
        IfNone result (All (IsAccepted (cutoff entries e)) last.now) }
{
    for piece in last {
        if let Some(cause) = refusal(piece, spec_in(known, piece.name)) {
            return Some(GateFault::At {
                place: piece.place,
                cause,
            });
        }
    }
    None
}
