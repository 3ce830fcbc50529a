// Words in lists that commas divide.
ghost use Rattle.std.specs.Prelude.{◌≡◌, ℕ, ◌<◌, ◌≤◌, Some, None, length, take, drop, MatchOption};
ghost use Rattle.std.specs.List.{list_all};
ghost use Rattle.httparse.specs.Grammar.{is_ows, skip_ows};
ghost use Rattle.req_head.specs.Reading.{cut_at};
ghost use Rattle.req_head.specs.Options.{is_option, is_word_first, same_word, lists_option};

use crate::lines::rest_of;

/// The bytes without the white space at the front.
fn skip_white(bytes: &[u8]) -> &[u8]
    ensures { result.now ≡ skip_ows bytes.now }
{
    let mut rest = bytes;
    while let [first, behind @ ..] = rest {
        if *first != b' ' && *first != b'\t' {
            return rest;
        }
        rest = behind;
    }
    rest
}

fn is_white(bytes: &[u8]) -> bool
    ensures { result ≡ list_all is_ows bytes.now }
{
    bytes.iter().all(|b| *b == b' ' || *b == b'\t')
}

fn is_word_first(text: &[u8], word: &[u8]) -> bool
    ensures { result ≡ is_word_first word.now text.now }
{
    let len = text.len().min(word.len());
    is_same_word(&text[..len], word) && is_white(rest_of(text, len))
}

/// Whether the text is the word, in any case and with white space around it.
#[tactic(auto, unfolding(crate::specs::Options::is_option))]
fn is_option(text: &[u8], word: &[u8]) -> bool
    ensures { result ≡ is_option word.now text.now }
{
    is_word_first(skip_white(text), word)
}

/// The bytes before the first comma, and those after it.
fn cut(bytes: &[u8]) -> Option<(&[u8], &[u8])>
    ensures cut { MatchOption result (cut_at 44 bytes.now ≡ None)
        (λ p. cut_at 44 bytes.now ≡ Some (p.0.now, p.1.now)) }
    ensures shorter { MatchOption result (Unit {0}) (λ p. length p.1.now < length bytes.now) }
{
    for (i, b) in bytes.iter().enumerate() {
        if *b == b',' {
            return Some((&bytes[..i], rest_of(bytes, i + 1)));
        }
    }
    None
}

/// Whether one of the parts between the commas is the word.
pub(crate) fn lists_option(value: &[u8], word: &[u8]) -> bool
    ensures { result ≡ lists_option word.now value.now }
{
    let mut rest = value;
    while let Some((first, behind)) = cut(rest) {
        if is_option(first, word) {
            return true;
        }
        rest = behind;
    }
    is_option(rest, word)
}

/// Whether the texts are the same word, in any case.
pub(crate) fn is_same_word(text: &[u8], word: &[u8]) -> bool
    ensures { result ≡ same_word word.now text.now }
{
    text.eq_ignore_ascii_case(word)
}
