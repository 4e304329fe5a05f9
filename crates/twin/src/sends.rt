//! What was sent.
ghost use Rattle.std.specs.Prelude.{◌≡◌, ◌↔◌, true, All, IsTrue, IfOk, length};
ghost use Rattle.std.specs.List.{sum_by};

use basis::Memory;
use world::Sent;

/// Whether all sends went.
pub(crate) fn all_went(sends: &[Sent]) -> bool
    ensures { IsTrue result ↔ All (λ s. s.went ≡ true) sends.now }
{
    sends.iter().all(|sent| sent.went)
}

/// How many bytes the sends have in all.
pub(crate) fn bytes_in(sends: &[Sent]) -> Result<u64, Memory>
    ensures { IfOk result (λ n. n ≡ sum_by (λ s. length s.bytes) sends.now) }
{
    let mut total = 0u64;
    for sent in sends {
        match total.checked_add(sent.bytes.bytes().len() as u64) {
            Some(more) => total = more,
            None => return Err(Memory),
        }
    }
    Ok(total)
}

/// Whether both send the same: to which connection, after how many events, which bytes, and whether as the last.
fn is_same(a: &Sent, b: &Sent) -> bool {
    a.c == b.c && a.seen == b.seen && a.last == b.last && a.bytes.bytes() == b.bytes.bytes()
}

/// Whether the same was sent on both sides, in the same order.
pub(crate) fn are_same(a: &[Sent], b: &[Sent]) -> bool {
    a.len() == b.len() && a.iter().zip(b).all(|(a, b)| is_same(a, b))
}
