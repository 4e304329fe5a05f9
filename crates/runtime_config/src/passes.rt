//! The two passes over the pieces of a text.
ghost use Rattle.std.specs.Prelude.{◌≡◌, ◌↔◌, IsTrue, IfSome, IfNone, All, List, [], ◌∷◌, ℕ, Option, Some, false};
ghost use Rattle.flag_text.specs.Pieces.{FlagPiece};
ghost use Rattle.flag_text.specs.Passes.{LacksBoolean};
ghost use Rattle.flag_text.specs.Said.{said};
ghost use Rattle.flag_text.specs.declared.vocabulary.Vocabulary.TheVariants.{Plain};
ghost use Rattle.lifecycle.specs.declared.entry.ApiEntry.{ApiEntry as TheEntry};
ghost use Rattle.lifecycle.specs.Tables.{cutoff};
ghost use Rattle.runtime_config.specs.Keys.{all_key};
ghost use Rattle.runtime_config.specs.Config.{IsPair, IsTakenKey, HasFault, IsRefused, IsFirstPassFault, IsSecondPassFault};
ghost use Rattle.runtime_config.specs.Standings.{standing, standing_cause, cause_of, HasStandings};

use crate::fault::{ConfigCause, ConfigFault};
use crate::keys::{ALL, is_api_key};
use crate::standing::{Standing, Standings, standing_in};
use flag_text::{PairCause, Piece, Vocabulary, first_pair_fault, said};

fn cause_named(cause: PairCause) -> ConfigCause
    ensures { (p : FlagPiece) → LacksBoolean Plain p cause → HasFault p result }
{
    match cause {
        PairCause::NoValue => ConfigCause::BadPair,
        PairCause::NoBoolean => ConfigCause::BadBool,
    }
}

/// The first piece that has a fault by itself.
pub fn first_fault(pieces: &[Piece<'_>]) -> Option<ConfigFault>
    ensures some { IfSome result (IsFirstPassFault pieces.now) }
    ensures none { IfNone result (All IsPair pieces.now) }
{
    match first_pair_fault(Vocabulary::Plain, pieces) {
        Some(fault) => Some(ConfigFault::At {
            place: fault.place,
            cause: cause_named(fault.cause),
        }),
        None => None,
    }
}

fn standing_cause(standing: Standing) -> Option<ConfigCause>
    ensures { result ≡ standing_cause standing }
{
    match standing {
        Standing::Live => None,
        Standing::Gone => Some(ConfigCause::RemovedApi),
        Standing::Later => Some(ConfigCause::AfterEmulated),
    }
}

// Why a key with this standing isn't taken.
fn cause_of(found: Option<Standing>) -> Option<ConfigCause>
    ensures { result ≡ cause_of found }
{
    match found {
        Some(standing) => standing_cause(standing),
        None => Some(ConfigCause::UnknownApi),
    }
}

// Why the release refuses the piece, by the standing of its key.
fn refusal(piece: &Piece<'_>, found: Option<Standing>) -> Option<ConfigCause>
    ensures some { (entries : List TheEntry) (e : ℕ) →
        found ≡ standing (cutoff entries e) e entries piece.now.name →
        IfSome result (IsRefused entries e piece.now) }
    ensures none { (entries : List TheEntry) (e : ℕ) →
        found ≡ standing (cutoff entries e) e entries piece.now.name →
        IfNone result (IsTakenKey (cutoff entries e) piece.now.name) }
{
    if is_api_key(piece.name) {
        None
    } else {
        cause_of(found)
    }
}

/// The first of the last pieces that the release refuses.
pub fn first_refusal<'a>(known: &Standings<'a>, last: &[Piece<'a>]) -> Option<ConfigFault>
    ensures some { (entries : List TheEntry) (e : ℕ) →
        HasStandings (cutoff entries e) e entries known.now →
        IfSome result (IsSecondPassFault entries e last.now) }
    ensures none { (entries : List TheEntry) (e : ℕ) →
        HasStandings (cutoff entries e) e entries known.now →
        IfNone result (All (λ p. IsTakenKey (cutoff entries e) p.name) last.now) }
{
    for piece in last {
        if let Some(cause) = refusal(piece, standing_in(known, piece.name)) {
            return Some(ConfigFault::At {
                place: piece.place,
                cause,
            });
        }
    }
    None
}

fn is_all_off(piece: &Piece<'_>) -> bool
    ensures { IsTrue result ↔ ((piece.now.name ≡ all_key) × (said Plain piece.now ≡ Some false)) }
{
    piece.name == ALL && said(Vocabulary::Plain, piece) == Some(false)
}

/// Whether `api/all=false` is all that is left.
pub fn is_only_all_false(last: &[Piece<'_>]) -> bool
    ensures { IsTrue result ↔ ((p : FlagPiece) × (last.now ≡ p ∷ [])
        × (p.name ≡ all_key) × (said Plain p ≡ Some false)) }
{
    last.len() == 1 && is_all_off(&last[0])
}
