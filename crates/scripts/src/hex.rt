//! Bytes in hexadecimal digits.
ghost use Rattle.std.specs.Prelude.{◌≡◌, ◌<◌, ◌≤◌, ◌+◌, ◌*◌, ℕ, List, IfOk, IfSome, IfNone, length, slice_index};
ghost use Rattle.scripts.specs.Writing.{IsHexDigit, IsHexByte, IsHex};

use basis::Memory;
use minor_version::Blob;
use std::alloc::Global;

fn digit_value(digit: u8) -> Option<u8>
    ensures some { IfSome result (λ value. IsHexDigit digit value) }
    ensures bound { IfSome result (λ value. value < 16) }
    ensures none { IfNone result ((value : ℕ) → ¬ IsHexDigit digit value) }
{
    match digit {
        b'0'..=b'9' => Some(digit - b'0'),
        b'a'..=b'f' => Some(digit - b'a' + 10),
        b'A'..=b'F' => Some(digit - b'A' + 10),
        _ => None,
    }
}

fn byte_of(high: u8, low: u8) -> Option<u8>
    ensures some { IfSome result (λ byte. IsHexByte high low byte) }
    ensures none { IfNone result ((byte : ℕ) → ¬ IsHexByte high low byte) }
{
    let Some(high_value) = digit_value(high) else {
        return None;
    };
    let Some(low_value) = digit_value(low) else {
        return None;
    };
    Some(16 * high_value + low_value)
}

/// The bytes that the digits write, two each.
pub fn bytes_of(alloc: Global, hex: &[u8]) -> Result<Option<Blob>, Memory>
    ensures some { IfOk result (λ o. IfSome o (λ bytes. IsHex hex.now bytes)) }
    ensures none { IfOk result (λ o. IfNone o ((bytes : List ℕ) → ¬ IsHex hex.now bytes)) }
{
    if hex.len() % 2 == 1 {
        return Ok(None);
    }
    let mut bytes = Vec::new(alloc);
    for k in 0..hex.len() / 2 {
        let Some(byte) = byte_of(hex[2 * k], hex[2 * k + 1]) else {
            return Ok(None);
        };
        match bytes.push(byte) {
            Ok(()) => {}
            Err(_) => return Err(Memory),
        }
    }
    Ok(Some(Blob::copy(alloc, bytes.as_slice())?))
}
