// The lines that a connection holds.
ghost use Rattle.std.specs.Prelude.{◌≡◌, ℕ, ◌≤◌, ◌<◌, ◌==◌, ◌||◌, nat_le, length, take, drop, false, MatchOption, codes, if◌then◌else◌};
ghost use Rattle.std.specs.List.{list_any};
ghost use Rattle.req_head.specs.Lines.{lines, whole_lines, after_empty};
ghost use Rattle.req_head.specs.FirstLine.{asks_head, begins_with};
ghost use Rattle.req_head.specs.Step.{looked, have_too_many, head_step};
ghost use Rattle.req_head.specs.declared.head.HeadStep.TheVariants.{More};

use memchr::memrchr;

/// How many bytes of a connection's input are looked at.
pub(crate) const LIMIT: usize = 8192;

/// The bytes from a place on.
pub(crate) fn rest_of(bytes: &[u8], at: usize) -> &[u8]
    requires { at ≤ length bytes.now }
    ensures { result.now ≡ drop at bytes.now }
{
    &bytes[at..]
}

/// The bytes that are looked at.
pub(crate) fn seen_of(bytes: &[u8]) -> &[u8]
    ensures value { result.now ≡ looked bytes.now }
    ensures short { length result.now ≤ 8192 }
{
    let end = bytes.len().min(LIMIT);
    &bytes[..end]
}

/// Where the last line ends: after the last line feed.
fn lines_end(seen: &[u8]) -> usize
    ensures within { result ≤ length seen.now }
    ensures lines { take result seen.now ≡ whole_lines seen.now }
{
    match memrchr(b'\n', seen) {
        Some(at) => at + 1,
        None => 0,
    }
}

/// The bytes up to the last line feed.
pub(crate) fn whole_lines_of(seen: &[u8]) -> &[u8]
    ensures { result.now ≡ whole_lines seen.now }
{
    &seen[..lines_end(seen)]
}

/// The bytes after an empty line at the front.
#[tactic(auto, unfolding(crate::specs::FirstLine::asks_head, crate::specs::Lines::lines, crate::specs::Lines::after_empty))]
fn after_blank(bytes: &[u8]) -> Option<&[u8]>
    ensures same { MatchOption result (Unit {0})
        (λ rest. asks_head bytes.now ≡ asks_head rest.now) }
    ensures shorter { MatchOption result (Unit {0}) (λ rest. length rest.now < length bytes.now) }
    ensures none { MatchOption result (asks_head bytes.now ≡ begins_with (codes "HEAD ") bytes.now)
        (λ rest. Unit {0}) }
    ensures lines { MatchOption result (after_empty (lines bytes.now) ≡ lines bytes.now)
        (λ rest. after_empty (lines bytes.now) ≡ after_empty (lines rest.now)) }
{
    match bytes {
        [b'\n', rest @ ..] => Some(rest),
        [b'\r', b'\n', rest @ ..] => Some(rest),
        _ => None,
    }
}

/// The bytes after all empty lines at the front.
fn after_blanks(bytes: &[u8]) -> &[u8]
    ensures ask { asks_head bytes.now ≡ begins_with (codes "HEAD ") result.now }
    ensures lines { after_empty (lines bytes.now) ≡ lines result.now }
{
    let mut rest = bytes;
    while let Some(next) = after_blank(rest) {
        rest = next;
    }
    rest
}

/// Whether the first line after empty ones begins with the method HEAD.
pub(crate) fn asks_head(bytes: &[u8]) -> bool
    ensures { result ≡ asks_head bytes.now }
{
    after_blanks(bytes).starts_with(b"HEAD ")
}

/// One for a byte that ends a line, nothing for another.
fn ends_line(byte: u8) -> usize
    ensures value { result ≡ (if byte == 10 then 1 else 0) }
    ensures few { result ≤ 1 }
{
    if byte == b'\n' { 1 } else { 0 }
}

/// How many lines have ended.
fn count_lines(bytes: &[u8]) -> usize
    ensures { result ≡ length (lines bytes.now) }
{
    let mut count = 0;
    for byte in bytes {
        let one = ends_line(*byte);
        count += one;
    }
    count
}

/// Whether after empty lines there are more than 65 lines: a request line and more than 64 fields, if they begin a
/// head.
pub(crate) fn have_too_many(seen: &[u8]) -> bool
    ensures { result ≡ have_too_many (lines seen.now) }
{
    count_lines(after_blanks(seen)) > 65
}

/// Whether bytes that came after the first `known` ones can make a difference.
///
/// Where `read_head` answered `More` for the first `known` bytes, and this answers no, it would answer `More` again: no
/// line has ended since, and fewer than 8192 bytes are held. Looks only at the bytes after the first `known` ones.
pub fn may_decide(bytes: &[u8], known: usize) -> bool
    requires { known ≤ length bytes.now }
    ensures exact { result ≡ (nat_le 8192 (length bytes.now)
        || list_any (λ b. b == 10) (drop known bytes.now)) }
    ensures waits { result ≡ false → head_step (take known bytes.now) ≡ More
        → head_step bytes.now ≡ More }
{
    bytes.len() >= LIMIT || rest_of(bytes, known).contains(&b'\n')
}
