// Cuts of a text at a byte.
ghost use Rattle.std.specs.Prelude.{◌≡◌, ◌+◌, ◌≤◌, ◌==◌, length, take, drop, option_map};
ghost use Rattle.std.specs.List.{position_or_len};
ghost use Rattle.text_words.specs.Cuts.{before_byte, behind_byte, behind_colon};

/// How many bytes come before the first of this value.
pub fn length_before(bytes: &[u8], byte: u8) -> usize
    ensures place { result ≡ position_or_len (λ b. b == byte) bytes.now }
    ensures within { result ≤ length bytes.now }
{
    for (i, b) in bytes.iter().enumerate() {
        if *b == byte {
            return i;
        }
    }
    bytes.len()
}

/// The bytes from this place on.
pub fn bytes_from(bytes: &[u8], at: usize) -> &[u8]
    requires { at ≤ length bytes.now }
    ensures rest { result.now ≡ drop at bytes.now }
    ensures len { length result.now + at ≡ length bytes.now }
{
    &bytes[at..]
}

/// The bytes up to this place.
pub fn bytes_to(bytes: &[u8], at: usize) -> &[u8]
    requires { at ≤ length bytes.now }
    ensures front { result.now ≡ take at bytes.now }
    ensures len { length result.now ≡ at }
{
    &bytes[..at]
}

/// The text before the first byte of this value, or all of it.
pub fn before_byte(text: &[u8], byte: u8) -> &[u8]
    ensures { result.now ≡ before_byte byte text.now }
{
    let at = length_before(text, byte);
    bytes_to(text, at)
}

/// The text after the first byte of this value, if there is one.
pub fn behind_byte(text: &[u8], byte: u8) -> Option<&[u8]>
    ensures { option_map (λ t. t.now) result ≡ behind_byte byte text.now }
{
    let at = length_before(text, byte);
    if at == text.len() {
        return None;
    }
    Some(bytes_from(text, at + 1))
}

/// What comes after a colon at the front.
pub fn behind_colon(text: Option<&[u8]>) -> Option<&[u8]>
    ensures { option_map (λ t. t.now) result ≡ behind_colon (option_map (λ t. t.now) text.entry) }
{
    match text {
        None => None,
        Some(text) => match text {
            [] => None,
            [first, rest @ ..] => { if *first == b':' { Some(rest) } else { None } }
        },
    }
}
