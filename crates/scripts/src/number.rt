//! Numbers of connections.
ghost use Rattle.std.specs.Prelude.{◌≡◌, ◌≢◌, ◌<◌, ◌^◌, ℕ, IfSome, IfNone, decimal};

use itoa::Buffer;

/// The number that the text writes in decimal without leading zeros.
pub fn number_of(text: &[u8]) -> Option<u32>
    ensures some { IfSome result (λ c. text.now ≡ decimal c) }
    ensures bound { IfSome result (λ c. c < 2 ^ 32) }
    ensures none { IfNone result ((c : ℕ) → c < 2 ^ 32 → text.now ≢ decimal c) }
{
    let Ok(digits) = str::from_utf8(text) else {
        return None;
    };
    let Ok(number) = digits.parse::<u32>() else {
        return None;
    };
    let mut buffer = Buffer::new();
    if buffer.format(number) == digits {
        Some(number)
    } else {
        None
    }
}
