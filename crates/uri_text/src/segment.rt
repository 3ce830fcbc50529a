// Kinds of segments.
ghost use Rattle.std.specs.Prelude.{◌≡◌, fold};
ghost use Rattle.uri_text.specs.Target.{kind_of};
ghost use Rattle.uri_text.specs.Steps.{kind_with};

/// What a segment of a path is (RFC 3986, section 3.3: a dot-segment is `.` or `..`).
#[derive(Clone, Copy)]
pub enum Segment {
    Empty,
    Dot,
    Dots,
    Name,
}

#[inline]
#[tactic(auto, unfolding(crate::specs::Target::kind_of))]
pub fn kind_of_bytes(bytes: &[u8]) -> Segment
    ensures { result ≡ kind_of bytes.now }
{
    match bytes {
        [] => Segment::Empty,
        [first] => {
            if *first == b'.' {
                Segment::Dot
            } else {
                Segment::Name
            }
        }
        [first, second] => {
            if *first == b'.' && *second == b'.' {
                Segment::Dots
            } else {
                Segment::Name
            }
        }
        _ => Segment::Name,
    }
}

/// The segment's kind with one more byte.
#[inline]
#[tactic(auto, unfolding(crate::specs::Steps::kind_with))]
pub fn kind_with_byte(kind: Segment, byte: u8) -> Segment
    ensures { result ≡ kind_with kind byte }
{
    match kind {
        Segment::Empty => {
            if byte == b'.' {
                Segment::Dot
            } else {
                Segment::Name
            }
        }
        Segment::Dot => {
            if byte == b'.' {
                Segment::Dots
            } else {
                Segment::Name
            }
        }
        Segment::Dots | Segment::Name => Segment::Name,
    }
}

/// The segment's kind with these bytes more. Three make any segment a name.
#[tactic(auto, unfolding(crate::specs::Steps::kind_with))]
pub fn kind_with_run(kind: Segment, run: &[u8]) -> Segment
    ensures { result ≡ fold kind_with kind run.now }
{
    match run {
        [] => kind,
        [first] => kind_with_byte(kind, *first),
        [first, second] => kind_with_byte(kind_with_byte(kind, *first), *second),
        _ => Segment::Name,
    }
}
