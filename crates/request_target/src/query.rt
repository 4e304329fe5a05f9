//! Queries.
ghost use Rattle.std.specs.Prelude.{◌≡◌, ◌<◌, ◌==◌, Some, None, IfSome, length, if◌then◌else◌, option_copied, option_map, position};
ghost use Rattle.request_target.specs.Queries.{IsCut, is_unsupported, piece_name, unsupported};

fn place_of(text: &[u8], byte: u8) -> Option<usize>
    ensures place { result ≡ position (λ c. c == byte) text.now }
    ensures bound { IfSome result (λ at. at < length text.now) }
{
    text.iter().position(|c| *c == byte)
}

// What stands before the first such byte, and what stands behind it, if there is one.
fn cut_at<'a>(text: &'a [u8], byte: u8) -> (&'a [u8], Option<&'a [u8]>)
    ensures { IsCut (λ c. c == byte) text.now result.0.now (option_copied result.1) }
{
    match place_of(text, byte) {
        Some(at) => (text.split_at(at).0, Some(text.split_at(at + 1).1)),
        None => (text, None),
    }
}

// The name of a piece of a query.
fn piece_name<'a>(piece: &'a [u8]) -> &'a [u8]
    ensures { result.now ≡ piece_name piece.now }
{
    let (name, _) = cut_at(piece, b'=');
    name
}

// The name as a text, if it is one that is refused.
fn unsupported_name(name: &[u8]) -> Option<&'static str>
    ensures { option_map (λ s. s.now) result
        ≡ (if is_unsupported name.now then Some name.now else None) }
{
    if b"watch".as_slice() == name {
        Some("watch")
    } else if b"dryRun".as_slice() == name {
        Some("dryRun")
    } else if b"labelSelector".as_slice() == name {
        Some("labelSelector")
    } else if b"fieldSelector".as_slice() == name {
        Some("fieldSelector")
    } else if b"continue".as_slice() == name {
        Some("continue")
    } else {
        None
    }
}

/// The first name in the query that would change the meaning of a request, and so is refused. None
/// where there is none; all other names are ignored.
pub fn unsupported(query: &[u8]) -> Option<&'static str>
    ensures { option_map (λ s. s.now) result ≡ unsupported query.now }
{
    let mut left = Some(query);
    while let Some(text) = left {
        let (piece, others) = cut_at(text, b'&');
        if let Some(name) = unsupported_name(piece_name(piece)) {
            return Some(name);
        }
        left = others;
    }
    None
}
