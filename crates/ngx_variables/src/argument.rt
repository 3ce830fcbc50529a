// Values in a row of `NAME=VALUE` parts.
ghost use Rattle.std.specs.Prelude.{◌≡◌, ℕ, ◌+◌, ◌-◌, ◌<◌, ◌≤◌, ◌==◌, List, [], ◌∷◌, length, map, take, drop, position, MatchOption, option_map};
ghost use Rattle.std.specs.List.{slice_split};
ghost use Rattle.ngx_variables.specs.Pairs.{is_same_name, value_in, first_value, trimmed, without_first_spaces, without_last_spaces, argument, cookie_in};

/// What comes after a name and `=` in a part that begins with them, whatever the name's case there.
#[tactic(auto, unfolding(crate::specs::Pairs::value_in))]
fn value_in<'a>(name: &[u8], part: &'a [u8]) -> Option<&'a [u8]>
    ensures { option_map (λ value. value.now) result ≡ value_in name.now part.now }
{
    if part.len() < name.len() {
        return None;
    }
    let (front, rest) = part.split_at(name.len());
    match rest {
        [b'=', value @ ..] if is_same_name(front, name) => Some(value),
        _ => None,
    }
}

/// Whether two names are the same, in any case.
fn is_same_name(a: &[u8], b: &[u8]) -> bool
    ensures { result ≡ is_same_name a.now b.now }
{
    a.eq_ignore_ascii_case(b)
}

/// Where a byte is first.
fn first_place(text: &[u8], byte: u8) -> Option<usize>
    ensures { result ≡ position (λ b. b == byte) text.now }
{
    text.iter().position(|b| *b == byte)
}

/// Where the first part ends, if another follows.
fn part_size(text: &[u8], separator: u8) -> Option<usize>
    ensures { MatchOption result
        (slice_split (λ b. b == separator) text.now ≡ text.now ∷ [])
        (λ size. (size < length text.now)
        × (slice_split (λ b. b == separator) text.now
        ≡ take size text.now ∷ slice_split (λ b. b == separator) (drop (size + 1) text.now))) }
{
    first_place(text, separator)
}

/// What follows a part and its separator.
fn behind_part(text: &[u8], size: usize) -> &[u8]
    requires { size < length text.now }
    ensures { result.now ≡ drop (size + 1) text.now }
{
    let _length = text.len();
    &text[size + 1..]
}

/// The value of an argument.
#[tactic(auto, unfolding(crate::specs::Pairs::argument, crate::specs::Pairs::first_value))]
pub(crate) fn argument<'a>(name: &[u8], args: &'a [u8]) -> Option<&'a [u8]>
    ensures { option_map (λ value. value.now) result ≡ argument name.now args.now }
{
    let mut rest = args;
    while let Some(size) = part_size(rest, b'&') {
        if let Some(value) = value_in(name, &rest[..size]) {
            return Some(value);
        }
        rest = behind_part(rest, size);
    }
    value_in(name, rest)
}

/// The text without the spaces that it begins with.
#[tactic(auto, unfolding(crate::specs::Pairs::without_first_spaces))]
pub fn without_first_spaces(text: &[u8]) -> &[u8]
    ensures { result.now ≡ without_first_spaces text.now }
{
    let mut rest = text;
    while let [b' ', after @ ..] = rest {
        rest = after;
    }
    rest
}

/// The text without the spaces that it ends with.
#[tactic(auto, unfolding(crate::specs::Pairs::without_last_spaces))]
pub fn without_last_spaces(text: &[u8]) -> &[u8]
    ensures { result.now ≡ without_last_spaces text.now }
{
    let mut rest = text;
    while let [before @ .., b' '] = rest {
        rest = before;
    }
    rest
}

/// The value of a cookie in one field.
#[tactic(auto, unfolding(crate::specs::Pairs::cookie_in, crate::specs::Pairs::first_value))]
pub(crate) fn cookie_in<'a>(name: &[u8], field: &'a [u8]) -> Option<&'a [u8]>
    ensures { option_map (λ value. value.now) result ≡ cookie_in name.now field.now }
{
    let mut rest = field;
    while let Some(size) = part_size(rest, b';') {
        if let Some(value) = value_in(
            name,
            without_last_spaces(without_first_spaces(&rest[..size])),
        ) {
            return Some(value);
        }
        rest = behind_part(rest, size);
    }
    value_in(name, without_last_spaces(without_first_spaces(rest)))
}
