//! The words of a boolean.
ghost use Rattle.std.specs.Prelude.{◌≡◌};
ghost use Rattle.std.specs.List.{list_any};
ghost use Rattle.std.specs.Str.{bytes_eq};
ghost use Rattle.flag_text.specs.Words.{true_words, false_words, bool_of};

/// Which words say a boolean.
#[derive(Clone, Copy, Debug, PartialEq, Eq)]
pub enum Vocabulary {
    /// Those that Go's `strconv.ParseBool` reads.
    Go,
    /// `true` and `false` alone.
    Plain,
}

fn is_go_true(word: &[u8]) -> bool
    ensures { result ≡ list_any (bytes_eq word.now) (true_words Vocabulary.Go) }
{
    word == b"1".as_slice()
        || word == b"t".as_slice()
        || word == b"T".as_slice()
        || word == b"TRUE".as_slice()
        || word == b"true".as_slice()
        || word == b"True".as_slice()
}

fn is_go_false(word: &[u8]) -> bool
    ensures { result ≡ list_any (bytes_eq word.now) (false_words Vocabulary.Go) }
{
    word == b"0".as_slice()
        || word == b"f".as_slice()
        || word == b"F".as_slice()
        || word == b"FALSE".as_slice()
        || word == b"false".as_slice()
        || word == b"False".as_slice()
}

impl Vocabulary {
    fn is_true(self, word: &[u8]) -> bool
        ensures { result ≡ list_any (bytes_eq word.now) (true_words self) }
    {
        match self {
            Vocabulary::Go => is_go_true(word),
            Vocabulary::Plain => word == b"true".as_slice(),
        }
    }

    fn is_false(self, word: &[u8]) -> bool
        ensures { result ≡ list_any (bytes_eq word.now) (false_words self) }
    {
        match self {
            Vocabulary::Go => is_go_false(word),
            Vocabulary::Plain => word == b"false".as_slice(),
        }
    }

    /// The boolean that the word says.
    pub fn boolean(self, word: &[u8]) -> Option<bool>
        ensures { result ≡ bool_of self word.now }
    {
        if self.is_true(word) {
            Some(true)
        } else if self.is_false(word) {
            Some(false)
        } else {
            None
        }
    }
}
