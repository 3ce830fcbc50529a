// Numbers and times.
ghost use Rattle.std.specs.Prelude.{◌≡◌, ◌<◌, ◌≤◌, length, IfSome};
ghost use Rattle.std.specs.Option.{ForSome};
ghost use Rattle.text_words.specs.Digits.{value_behind};
ghost use Rattle.conf_values.specs.Numbers.{is_numeral, port_of, count_to, count_of, unit_of, digits_before, in_units, time_of, bytes_of, size_to, size_of};

use text_words::{are_decimal, is_decimal, value_of};

fn is_numeral(text: &[u8]) -> bool
    ensures { result ≡ is_numeral text.now }
{
    match text {
        [] => false,
        [first, ..] => are_decimal(text) && *first != b'0',
    }
}

/// A port from 1 to 65535, with no leading zero.
#[tactic(auto, unfolding(crate::specs::Numbers::port_of))]
pub fn port_of(text: &[u8]) -> Option<u16>
    ensures { result ≡ port_of text.now }
{
    if !is_numeral(text) {
        return None;
    }
    let Some(value) = value_of(text) else {
        return None;
    };
    if value > 65535 {
        return None;
    }
    Some(value as u16)
}

/// A count from 1 to this one, with no leading zero.
#[tactic(auto, unfolding(crate::specs::Numbers::count_to))]
pub fn count_to(text: &[u8], most: u32) -> Option<u32>
    ensures { result ≡ count_to most text.now }
{
    if !is_numeral(text) {
        return None;
    }
    let Some(value) = value_of(text) else {
        return None;
    };
    if value > u64::from(most) {
        return None;
    }
    Some(value as u32)
}

/// A count from 1 to 1000000000, with no leading zero.
pub fn count_of(text: &[u8]) -> Option<u32>
    ensures { result ≡ count_of text.now }
{
    count_to(text, 1_000_000_000)
}

/// How many milliseconds a unit has.
#[tactic(auto, unfolding(crate::specs::Numbers::unit_of))]
fn unit_of(word: &[u8]) -> Option<u64>
    ensures value { result ≡ unit_of word.now }
    ensures some { IfSome result (λ unit. 0 < unit) }
{
    if word.is_empty() {
        Some(1000)
    } else if word == b"ms".as_slice() {
        Some(1)
    } else if word == b"s".as_slice() {
        Some(1000)
    } else if word == b"m".as_slice() {
        Some(60_000)
    } else if word == b"h".as_slice() {
        Some(3_600_000)
    } else if word == b"d".as_slice() {
        Some(86_400_000)
    } else {
        None
    }
}

/// How many digits the text begins with.
#[tactic(auto, unfolding(crate::specs::Numbers::digits_before))]
fn digits_before(text: &[u8]) -> usize
    ensures value { result ≡ digits_before text.now }
    ensures within { result ≤ length text.now }
{
    let mut size = 0;
    let mut rest = text;
    while let [first, behind @ ..] = rest {
        if !is_decimal(*first) {
            return size;
        }
        size += 1;
        rest = behind;
    }
    size
}

/// What digits and a unit give, where that is at most this number.
fn in_units(digits: &[u8], unit: Option<u64>, most: u64) -> Option<u64>
    requires { ForSome unit (λ unit. 0 < unit) }
    ensures within { IfSome result (λ total. total ≤ most) }
    ensures value { result ≡ in_units most (value_behind 0 digits.now) unit }
{
    let Some(unit) = unit else {
        return None;
    };
    let Some(count) = value_of(digits) else {
        return None;
    };
    let Some(total) = count.checked_mul(unit) else {
        return None;
    };
    if total > most {
        return None;
    }
    Some(total)
}

/// A time in milliseconds, at most 2^40 seconds: digits and a unit, of which seconds are the one that may be left out
/// (nginx's documentation, "Configuration file measurement units").
#[tactic(auto, unfolding(crate::specs::Numbers::time_of))]
pub fn time_of(text: &[u8]) -> Option<u64>
    ensures { result ≡ time_of text.now }
{
    let size = digits_before(text);
    if size == 0 {
        return None;
    }
    in_units(&text[..size], unit_of(&text[size..]), 1_099_511_627_776_000)
}

/// How many bytes a unit has.
#[tactic(auto, unfolding(crate::specs::Numbers::bytes_of))]
fn bytes_of(word: &[u8]) -> Option<u64>
    ensures value { result ≡ bytes_of word.now }
    ensures some { IfSome result (λ unit. 0 < unit) }
{
    if word.is_empty() {
        Some(1)
    } else if word == b"k".as_slice() || word == b"K".as_slice() {
        Some(1024)
    } else if word == b"m".as_slice() || word == b"M".as_slice() {
        Some(1_048_576)
    } else if word == b"g".as_slice() || word == b"G".as_slice() {
        Some(1_073_741_824)
    } else {
        None
    }
}

/// A size in bytes, at most this one: digits and a unit, of which bytes are the one that may be left out (nginx's
/// documentation, "Configuration file measurement units").
#[tactic(auto, unfolding(crate::specs::Numbers::size_to))]
pub fn size_to(text: &[u8], most: u64) -> Option<u64>
    ensures value { result ≡ size_to most text.now }
    ensures within { IfSome result (λ size. size ≤ most) }
{
    let size = digits_before(text);
    if size == 0 {
        return None;
    }
    in_units(&text[..size], bytes_of(&text[size..]), most)
}

/// A size of at most 2^40 bytes.
pub fn size_of(text: &[u8]) -> Option<u64>
    ensures { result ≡ size_of text.now }
{
    size_to(text, 1_099_511_627_776)
}
