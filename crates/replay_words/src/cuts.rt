// Lines at the front of a text.
ghost use Rattle.std.specs.Prelude.{◌≡◌, ◌<◌, [], ◌∷◌, length, IfSome, MatchOption};
ghost use Rattle.replay_words.specs.Lines.{lines_of};

use text_words::{bytes_from, bytes_to, length_before};

/// The next line and the bytes after it, if there is one.
pub fn next_line(bytes: &[u8]) -> Option<(&[u8], &[u8])>
    ensures lines { MatchOption result (lines_of bytes.now ≡ [])
        (λ x. lines_of bytes.now ≡ x.0.now ∷ lines_of x.1.now) }
    ensures shorter { IfSome result (λ x. length x.1.now < length bytes.now) }
{
    if bytes.is_empty() {
        return None;
    }
    let at = length_before(bytes, b'\n');
    if at == bytes.len() {
        return Some((bytes, bytes_from(bytes, at)));
    }
    Some((bytes_to(bytes, at), bytes_from(bytes, at + 1)))
}
