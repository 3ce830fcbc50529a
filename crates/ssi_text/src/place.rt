// Where a byte of a command is, and where the command ends.
ghost use Rattle.std.specs.Prelude.{◌≡◌, ℕ, ◌+◌, ◌<◌, ◌≤◌, length, drop, IfSome};
ghost use Rattle.std.specs.List.{prefix_len};
ghost use Rattle.ssi_text.specs.Commands.{Outside, closes as closes_at, is_plain as is_plain_byte, is_quote as is_quote_byte, quoted, size, taken};
ghost use Rattle.ssi_text.specs.Split.{begins};

/// Whether bytes that may go on begin with a word.
#[derive(Clone, Copy, Drop)]
pub enum Begun {
    Yes,
    No,
    Maybe,
}

pub fn begins_with(word: &[u8], bytes: &[u8]) -> Begun
    ensures { result ≡ begins word.now bytes.now }
{
    for (i, byte) in word.iter().enumerate() {
        if i >= bytes.len() {
            return Begun::Maybe;
        }
        if *byte != bytes[i] {
            return Begun::No;
        }
    }
    Begun::Yes
}

pub fn is_quote(byte: u8) -> bool
    ensures { result ≡ is_quote_byte byte }
{
    byte == b'"' || byte == b'\''
}

/// The bytes from a place on.
pub fn rest_of(bytes: &[u8], at: usize) -> &[u8]
    requires { at ≤ length bytes.now }
    ensures { result.now ≡ drop at bytes.now }
{
    &bytes[at..]
}

/// Whether the bytes begin with `-->`.
pub fn closes(bytes: &[u8]) -> bool
    ensures { result ≡ closes_at bytes.now }
{
    match bytes {
        [a, b, c, ..] => *a == b'-' && *b == b'-' && *c == b'>',
        _ => false,
    }
}

/// Whether a byte outside quotes neither ends the command nor opens a quote.
pub fn is_plain(byte: u8) -> bool
    ensures { result ≡ is_plain_byte byte }
{
    !(byte == b'-' || is_quote(byte))
}

/// How many bytes of a value come up to its closing quote, and with it.
pub fn quoted_len(quote: u8, bytes: &[u8]) -> Option<usize>
    ensures value { result ≡ quoted quote bytes.now }
    ensures least { IfSome result (λ n. 1 ≤ n) }
    ensures within { IfSome result (λ n. n ≤ length bytes.now) }
{
    let mut at = 0;
    while at < bytes.len() {
        let byte = bytes[at];
        at += 1;
        if byte == quote {
            return Some(at);
        }
        if byte == b'\\' {
            at += 1;
        }
    }
    None
}

/// How many plain bytes come first.
fn plain_len(bytes: &[u8]) -> usize
    ensures value { result ≡ prefix_len is_plain_byte bytes.now }
    ensures within { result ≤ length bytes.now }
{
    bytes.iter().take_while(|b| is_plain(**b)).count()
}

/// How many bytes a byte outside quotes takes along: all up to its closing quote, or itself.
fn taken_len(byte: u8, rest: &[u8]) -> Option<usize>
    ensures value { result ≡ taken byte rest.now }
    ensures least { IfSome result (λ n. 1 ≤ n) }
    ensures within { IfSome result (λ n. n ≤ length rest.now + 1) }
{
    if !is_quote(byte) {
        return Some(1);
    }
    match quoted_len(byte, rest) {
        Some(len) => Some(1 + len),
        None => None,
    }
}

/// How many bytes come up to the end of a command and with it.
pub fn size_of_command(bytes: &[u8]) -> Option<usize>
    ensures value { result ≡ size Outside bytes.now }
    ensures least { IfSome result (λ n. 3 ≤ n) }
    ensures within { IfSome result (λ n. n ≤ length bytes.now) }
{
    let mut at = 0;
    while at < bytes.len() {
        at += plain_len(rest_of(bytes, at));
        if at == bytes.len() {
            return None;
        }
        if closes(rest_of(bytes, at)) {
            return Some(at + 3);
        }
        match taken_len(bytes[at], rest_of(bytes, at + 1)) {
            Some(len) => at += len,
            None => return None,
        }
    }
    None
}
