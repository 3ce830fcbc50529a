// The first bytes of words.
ghost use Rattle.std.specs.Prelude.{◌≡◌, drop};
ghost use Rattle.conf_values.specs.Words.{begins_with};

pub fn begins_with(word: &[u8], byte: u8) -> bool
    ensures { result ≡ begins_with byte word.now }
{
    match word {
        [] => false,
        [first, ..] => *first == byte,
    }
}

/// The word without its first byte.
pub fn rest_of(word: &[u8]) -> &[u8]
    ensures { result.now ≡ drop 1 word.now }
{
    match word {
        [] => word,
        [_, rest @ ..] => rest,
    }
}
