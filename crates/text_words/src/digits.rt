// Decimal digits.
ghost use Rattle.std.specs.Prelude.{◌≡◌, ◌^◌, ◌≤◌, MatchOption};
ghost use Rattle.std.specs.List.{list_all};
ghost use Rattle.text_words.specs.Digits.{is_decimal, value_behind};

/// `0` to `9`.
pub fn is_decimal(byte: u8) -> bool
    ensures { result ≡ is_decimal byte }
{
    48 <= byte && byte <= 57
}

/// Whether each byte is `0` to `9`.
pub fn are_decimal(text: &[u8]) -> bool
    ensures { result ≡ list_all is_decimal text.now }
{
    text.iter().all(|b| 48 <= *b && *b <= 57)
}

/// The number that decimal digits write, or nothing where it is past the type's end.
pub fn value_of(digits: &[u8]) -> Option<u64>
    ensures { MatchOption result (2 ^ 64 ≤ value_behind 0 digits.now)
        (λ n. n ≡ value_behind 0 digits.now) }
{
    let mut value: u64 = 0;
    for b in digits {
        let Some(tens) = value.checked_mul(10) else {
            return None;
        };
        let Some(more) = tens.checked_add(u64::from(b.saturating_sub(48))) else {
            return None;
        };
        value = more;
    }
    Some(value)
}
