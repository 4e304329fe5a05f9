//! Whole numbers as texts.
ghost use Rattle.std.specs.Prelude.{◌≡◌, ◌≢◌, ℤ, IfSome, IfNone};
ghost use Rattle.std.specs.Fmt.{signed_decimal};
ghost use Rattle.fields.specs.Table.{IsInt64};

use itoa::Buffer;

/// The whole number of 64 bits whose decimal text this is: without plus sign, leading zeros or `-0`.
pub(crate) fn whole_of_text(text: &str) -> Option<i64>
    ensures some { IfSome result (λ z. IsInt64 z × (text.now ≡ signed_decimal z)) }
    ensures none { IfNone result ((z : ℤ) → IsInt64 z → text.now ≢ signed_decimal z) }
{
    let Ok(number) = text.parse::<i64>() else {
        return None;
    };
    let mut buffer = Buffer::new();
    if buffer.format(number) == text {
        Some(number)
    } else {
        None
    }
}
