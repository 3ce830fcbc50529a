// The extension of a path.
ghost use Rattle.std.specs.Prelude.{◌≡◌};
ghost use Rattle.std.specs.Option.{option_copied};
ghost use Rattle.file_type.specs.Extension.{extension};

/// What comes after the last `.` of the last segment of a path, which has `/` between its segments.
pub fn extension(path: &[u8]) -> Option<&[u8]>
    ensures { option_copied result ≡ extension path.now }
{
    // From the end back, each byte is looked at once.
    let mut end = path.len();
    while end > 0 {
        let byte = path[end - 1];
        if byte == b'.' {
            return Some(&path[end..]);
        }
        if byte == b'/' {
            return None;
        }
        end -= 1;
    }
    None
}
