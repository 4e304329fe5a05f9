//! The pieces of a flag text.
ghost use Rattle.std.specs.Prelude.{◌≡◌, ◌<◌, ◌==◌, IfOk, IfSome, length, map};
ghost use Rattle.std.specs.List.{position, slice_split};
ghost use Rattle.flag_text.specs.Pieces.{is_blank, trimmed_start, trimmed_end, trimmed, piece_of, pieces};

use basis::Memory;
use std::alloc::{AllocError, Global};
use std::marker::Model;

/// A piece of a flag text: its place, counted from 1 over all pieces, and what stands around its first `=`.
#[derive(Debug, Drop)]
pub struct Piece<'a> {
    pub place: u64,
    pub name: &'a [u8],
    pub value: Option<&'a [u8]>,
}

impl<'a> Model for Piece<'a> {
    ghost use Rattle.std.specs.Option.{option_map};
    ghost use Rattle.flag_text.specs.Pieces.{FlagPiece};

    ghost Value = { FlagPiece };

    ghost view = { λ p. record {
      place = p.place;
      name = p.name.now;
      value = option_map (λ v. v.now) p.value;
    } };
}

fn is_blank(byte: u8) -> bool
    ensures { result ≡ is_blank byte }
{
    byte == b' ' || byte == b'\t'
}

fn trimmed_start(text: &[u8]) -> &[u8]
    ensures { result.now ≡ trimmed_start text.now }
{
    let mut from = 0;
    while from < text.len() && is_blank(text[from]) {
        from += 1;
    }
    text.split_at(from).1
}

fn trimmed_end(text: &[u8]) -> &[u8]
    ensures { result.now ≡ trimmed_end text.now }
{
    let mut to = text.len();
    while to > 0 && is_blank(text[to - 1]) {
        to -= 1;
    }
    text.split_at(to).0
}

fn trimmed(text: &[u8]) -> &[u8]
    ensures { result.now ≡ trimmed text.now }
{
    trimmed_end(trimmed_start(text))
}

fn equals_sign(text: &[u8]) -> Option<usize>
    ensures place { result ≡ position (λ c. c == 61) text.now }
    ensures bound { IfSome result (λ at. at < length text.now) }
{
    text.iter().position(|byte| *byte == b'=')
}

// The piece with this place and text.
fn cut<'a>(place: u64, text: &'a [u8]) -> Piece<'a>
    ensures { result ≡ piece_of (place, text.now) }
{
    match equals_sign(text) {
        Some(at) => Piece {
            place,
            name: trimmed(text.split_at(at).0),
            value: Some(trimmed(text.split_at(at + 1).1)),
        },
        None => Piece {
            place,
            name: trimmed(text),
            value: None,
        },
    }
}

// The texts between the commas.
fn parts<'a>(alloc: Global, text: &'a [u8]) -> Result<Vec<&'a [u8]>, AllocError>
    ensures { IfOk result (λ v. map (λ r. r.now) v.items ≡ slice_split (λ c. c == 44) text.now) }
{
    text.split(|byte| *byte == b',').collect(alloc)
}

/// The pieces of the text but for the empty ones.
pub fn pieces(alloc: Global, text: &[u8]) -> Result<Vec<Piece<'_>>, Memory>
    ensures { IfOk result (λ v. v.items ≡ pieces text.now) }
{
    let parts = parts(alloc, text)?;
    let mut pieces = Vec::new(alloc);
    for (index, part) in parts.iter().enumerate() {
        let part = trimmed(part);
        if !part.is_empty() {
            pieces.push(cut(index as u64 + 1, part))?;
        }
    }
    Ok(pieces)
}
