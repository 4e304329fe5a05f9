ghost use Rattle.std.specs.Prelude.{◌≡◌, ◌≢◌, ◌≤◌, ℕ, IfSome, IfNone, decimal};

use itoa::Buffer;

/// The number from 0 to 999 that the text writes in decimal without leading zeros.
pub fn small_number(text: &[u8]) -> Option<u16>
    ensures found { IfSome result (λ n. text.now ≡ decimal n) }
    ensures bound { IfSome result (λ n. n ≤ 999) }
    ensures none { IfNone result ((n : ℕ) → n ≤ 999 → text.now ≢ decimal n) }
{
    let Ok(digits) = str::from_utf8(text) else {
        return None;
    };
    let Ok(number) = digits.parse::<u16>() else {
        return None;
    };
    let mut buffer = Buffer::new();
    if number <= 999 && buffer.format(number) == digits {
        Some(number)
    } else {
        None
    }
}
