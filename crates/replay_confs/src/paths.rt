// Paths that lie in folders.
ghost use Rattle.std.specs.Prelude.{◌≡◌, ◌≢◌, ◌++◌, ℕ, List, MatchOption, option_map};
ghost use Rattle.replay_confs.specs.Paths.{behind as text_behind, front_of, below, first_name};

// What is after a front, where the text begins with it.
fn behind<'a>(front: &[u8], text: &'a [u8]) -> Option<&'a [u8]>
    ensures { option_map (λ t. t.now) result ≡ text_behind front.now text.now }
{
    text.strip_prefix(front)
}

// What is before the slash of a folder's children.
fn front_of(folder: &[u8]) -> &[u8]
    ensures { result.now ≡ front_of folder.now }
{
    match folder {
        [b'/'] => &[],
        _ => folder,
    }
}

/// How a path goes on below a folder, where it does.
pub fn below<'a>(folder: &[u8], path: &'a [u8]) -> Option<&'a [u8]>
    ensures { option_map (λ t. t.now) result ≡ below folder.now path.now }
{
    let Some(rest) = behind(front_of(folder), path) else {
        return None;
    };
    behind(b"/".as_slice(), rest)
}

/// A text up to its first slash.
pub fn first_name(text: &[u8]) -> &[u8]
    ensures { result.now ≡ first_name text.now }
{
    for (i, byte) in text.iter().enumerate() {
        if *byte == b'/' {
            return &text[..i];
        }
    }
    text
}
