//! The last piece of each name.
ghost use Rattle.std.specs.Prelude.{◌≡◌, IfOk};
ghost use Rattle.flag_text.specs.Pieces.{last_pieces};
ghost use Rattle.flag_text.specs.Said.{said, said_in, HasSaid};

use crate::name::Name;
use crate::piece::Piece;
use crate::vocabulary::Vocabulary;
use basis::Memory;
use std::alloc::Global;
use std::collections::BTreeMap;

/// The last pieces, in order, and what each says, by name.
#[derive(Debug, Drop)]
pub struct LastPieces<'a> {
    pub pieces: Vec<Piece<'a>>,
    pub booleans: BTreeMap<Name<'a>, Option<bool>>,
}

/// The boolean that the piece says.
pub fn said(words: Vocabulary, piece: &Piece<'_>) -> Option<bool>
    ensures { result ≡ said words piece.now }
{
    match piece.value {
        Some(word) => words.boolean(word),
        None => None,
    }
}

/// The boolean under the name.
pub fn said_in<'a>(booleans: &BTreeMap<Name<'a>, Option<bool>>, name: &'a [u8]) -> Option<bool>
    ensures { result ≡ said_in booleans.now name.now }
{
    match booleans.get(&Name { bytes: name }) {
        Some(boolean) => *boolean,
        None => None,
    }
}

/// For each name its last piece.
pub fn last_pieces(
    alloc: Global,
    words: Vocabulary,
    mut pieces: Vec<Piece<'_>>,
) -> Result<LastPieces<'_>, Memory>
    ensures order { IfOk result (λ last. last.pieces.items ≡ last_pieces pieces.entry.items) }
    ensures booleans { IfOk result (λ last. HasSaid words pieces.entry.items last.booleans) }
{
    let mut last = Vec::new(alloc);
    let mut booleans = BTreeMap::new(alloc);
    while let Some(piece) = pieces.pop() {
        let name = Name { bytes: piece.name };
        if booleans.contains_key(&name) {
            continue;
        }
        booleans.insert(name, said(words, &piece))?;
        last.push(piece)?;
    }
    last.reverse();
    Ok(LastPieces {
        pieces: last,
        booleans,
    })
}
