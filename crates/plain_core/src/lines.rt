// Lines.
ghost use Rattle.std.specs.Prelude.{◌≡◌, ◌≤◌, ◌<◌, true, false, MatchOption, length, drop};
ghost use Rattle.plain_core.specs.Lines.{has_line, after_line};

/// The size of the first line with its end, if one ends within.
pub(crate) fn line_size(bytes: &[u8]) -> Option<usize>
    ensures { MatchOption result (has_line bytes.now ≡ false)
        (λ n. (has_line bytes.now ≡ true) × (0 < n) × (n ≤ length bytes.now) ×
        (drop n bytes.now ≡ after_line bytes.now)) }
{
    for (i, byte) in bytes.iter().enumerate() {
        if *byte == b'\n' {
            return Some(i + 1);
        }
    }
    None
}
