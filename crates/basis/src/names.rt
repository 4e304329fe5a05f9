//! Tests of the texts that names are made of.
ghost use Rattle.std.specs.Prelude.{◌↔◌, IsTrue};
ghost use Rattle.basis.specs.Names.{IsLowerOrDigit, IsLetterOrDigit, IsLabelByte, IsLabel, IsDottedLabels, BeginsLower, BeginsUpper};

fn is_lower_or_digit(byte: u8) -> bool
    ensures { IsTrue result ↔ IsLowerOrDigit byte }
{
    matches!(byte, b'a'..=b'z' | b'0'..=b'9')
}

fn is_letter_or_digit(byte: u8) -> bool
    ensures { IsTrue result ↔ IsLetterOrDigit byte }
{
    matches!(byte, b'a'..=b'z' | b'A'..=b'Z' | b'0'..=b'9')
}

fn is_label_byte(byte: u8) -> bool
    ensures { IsTrue result ↔ IsLabelByte byte }
{
    is_lower_or_digit(byte) || byte == b'-'
}

/// Whether the text is a label (RFC 1123, without its limit of 63 bytes): of `a-z`, `0-9` and `-`, with a letter or a
/// digit at both ends.
pub fn is_label(text: &[u8]) -> bool
    ensures { IsTrue result ↔ IsLabel text.now }
{
    !text.is_empty()
        && is_lower_or_digit(text[0])
        && is_lower_or_digit(text[text.len() - 1])
        && text.iter().all(|byte| is_label_byte(*byte))
}

/// Whether the text is labels joined by dots.
pub fn is_dotted_labels(text: &[u8]) -> bool
    ensures { IsTrue result ↔ IsDottedLabels text.now }
{
    text.split(|byte| *byte == b'.')
        .all(|label| is_label(label))
}

/// Whether the text is a lower-case letter and then lower-case letters and digits, of at most `most` bytes.
pub fn is_lower_word(text: &[u8], most: usize) -> bool
    ensures { IsTrue result ↔ BeginsLower most IsLowerOrDigit text.now }
{
    !text.is_empty()
        && text.len() <= most
        && matches!(text[0], b'a'..=b'z')
        && text.iter().all(|byte| is_lower_or_digit(*byte))
}

/// Whether the text is a lower-case letter and then letters and digits, of at most `most` bytes.
pub fn is_camel_word(text: &[u8], most: usize) -> bool
    ensures { IsTrue result ↔ BeginsLower most IsLetterOrDigit text.now }
{
    !text.is_empty()
        && text.len() <= most
        && matches!(text[0], b'a'..=b'z')
        && text.iter().all(|byte| is_letter_or_digit(*byte))
}

/// Whether the text is an upper-case letter and then letters and digits, of at most `most` bytes.
pub fn is_pascal_word(text: &[u8], most: usize) -> bool
    ensures { IsTrue result ↔ BeginsUpper most text.now }
{
    !text.is_empty()
        && text.len() <= most
        && matches!(text[0], b'A'..=b'Z')
        && text.iter().all(|byte| is_letter_or_digit(*byte))
}
