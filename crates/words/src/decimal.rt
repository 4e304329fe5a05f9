ghost use Rattle.std.specs.Prelude.{◌≡◌, ◌≢◌, ◌<◌, ◌^◌, ℕ, IfSome, IfNone, decimal};

use itoa::Buffer;

/// The number of 64 bits that the text writes in decimal without leading zeros.
pub fn decimal_number(text: &str) -> Option<u64>
    ensures some { IfSome result (λ n. text.now ≡ decimal n) }
    ensures none { IfNone result ((n : ℕ) → n < 2 ^ 64 → text.now ≢ decimal n) }
{
    let Ok(number) = text.parse::<u64>() else {
        return None;
    };
    let mut buffer = Buffer::new();
    if buffer.format(number) == text {
        Some(number)
    } else {
        None
    }
}
