// Where in a body the next byte is, and the places that bytes lead to.
ghost use Rattle.std.specs.Prelude.{◌≡◌, ℕ, ◌+◌, ◌-◌, ◌<◌, ◌≤◌, ◌==◌, List, [], ◌++◌, length, drop};
ghost use Rattle.body_frame.specs.Outcome.{Short, step_of};
ghost use Rattle.body_frame.specs.Position.{stops_at, after_digits, in_size, in_blanks, in_extension, in_trailer, expected, place_after, Skips};

use crate::BodyStep;
use httparse::{is_space_or_tab, parse_hex_digit};

/// The most bytes of a line that gives a chunk's size, without its CR LF.
pub const SIZE_LINE_LIMIT: u16 = 4096;

/// The most bytes of the trailer lines, with their line ends, but without the empty line after them.
pub const TRAILER_LIMIT: u16 = 8192;

/// Where in a body the next byte is.
#[derive(Clone, Copy, Debug)]
pub enum Position {
    /// Before the last bytes of the body, this many.
    Plain(u64),
    /// At the first digit of a chunk's size.
    SizeStart,
    /// After digits that give this size, on a line of which `line` bytes are read.
    Size { size: u64, line: u16 },
    /// Among the blanks before a `;`, which is counted already.
    Blanks { size: u64, line: u16 },
    /// After the `;` of a size's line.
    Extension { size: u64, line: u16 },
    /// At the line feed after a chunk's size.
    SizeLineFeed(u64),
    /// Before this many bytes of a chunk, and then its CR.
    Data(u64),
    /// At the line feed after a chunk's bytes.
    DataLineFeed,
    /// At the beginning of a trailer line, or of the empty line, after this many bytes of trailer lines.
    Trailers(u16),
    /// In a trailer line, after this many bytes of trailer lines. The CR LF of this one is counted already.
    Trailer(u16),
    /// At the line feed of a trailer line.
    TrailerLineFeed(u16),
    /// At the last line feed.
    LastLineFeed,
    /// After bytes that begin no body.
    Failed,
}

fn expected(byte: u8, wanted: u8, next: Position) -> Position
    ensures { result ≡ expected byte wanted next }
{
    if byte == wanted {
        next
    } else {
        Position::Failed
    }
}

fn after_digits(size: u64, line: u16, byte: u8) -> Position
    ensures { result ≡ after_digits size line byte }
{
    if byte == b'\r' {
        return Position::SizeLineFeed(size);
    }
    if byte == b';' && line < SIZE_LINE_LIMIT {
        return Position::Extension {
            size,
            line: line + 1,
        };
    }
    if is_space_or_tab(byte) && line < SIZE_LINE_LIMIT - 1 {
        return Position::Blanks {
            size,
            line: line + 2,
        };
    }
    Position::Failed
}

fn in_size(size: u64, line: u16, byte: u8) -> Position
    ensures { result ≡ in_size size line byte }
{
    match parse_hex_digit(byte) {
        Some(digit) => if size < 1 << 59 && line < SIZE_LINE_LIMIT {
            Position::Size {
                size: size * 16 + digit,
                line: line + 1,
            }
        } else {
            Position::Failed
        },
        None => after_digits(size, line, byte),
    }
}

fn in_blanks(size: u64, line: u16, byte: u8) -> Position
    ensures { result ≡ in_blanks size line byte }
{
    if byte == b';' {
        return Position::Extension { size, line };
    }
    if is_space_or_tab(byte) && line < SIZE_LINE_LIMIT {
        return Position::Blanks {
            size,
            line: line + 1,
        };
    }
    Position::Failed
}

fn in_extension(size: u64, line: u16, byte: u8) -> Position
    ensures { result ≡ in_extension size line byte }
{
    if byte == b'\r' {
        return Position::SizeLineFeed(size);
    }
    if byte == b'\n' || line >= SIZE_LINE_LIMIT {
        return Position::Failed;
    }
    Position::Extension {
        size,
        line: line + 1,
    }
}

fn in_trailer(count: u16, more: u16, ends: Position, byte: u8) -> Position
    requires { more ≤ 3 }
    ensures { result ≡ in_trailer count more ends byte }
{
    if byte == b'\r' {
        return ends;
    }
    if byte == b'\n' || count > TRAILER_LIMIT - more {
        return Position::Failed;
    }
    Position::Trailer(count + more)
}

impl Position {
    /// The place after one more byte.
    pub fn after(self, byte: u8) -> Position
        ensures { result ≡ place_after self byte }
    {
        match self {
            Position::Plain(0) | Position::Failed => self,
            Position::Plain(left) => Position::Plain(left - 1),
            Position::SizeStart => match parse_hex_digit(byte) {
                Some(digit) => Position::Size {
                    size: digit,
                    line: 1,
                },
                None => Position::Failed,
            },
            Position::Size { size, line } => in_size(size, line, byte),
            Position::Blanks { size, line } => in_blanks(size, line, byte),
            Position::Extension { size, line } => in_extension(size, line, byte),
            Position::SizeLineFeed(0) => expected(byte, b'\n', Position::Trailers(0)),
            Position::SizeLineFeed(size) => expected(byte, b'\n', Position::Data(size)),
            Position::Data(0) => expected(byte, b'\r', Position::DataLineFeed),
            Position::Data(left) => Position::Data(left - 1),
            Position::DataLineFeed => expected(byte, b'\n', Position::SizeStart),
            Position::Trailers(count) => in_trailer(count, 3, Position::LastLineFeed, byte),
            Position::Trailer(count) => in_trailer(
                count,
                1,
                Position::TrailerLineFeed(count),
                byte,
            ),
            Position::TrailerLineFeed(count) => expected(byte, b'\n', Position::Trailers(count)),
            Position::LastLineFeed => expected(byte, b'\n', Position::Plain(0)),
        }
    }

    /// What is known of a body whose next byte is here.
    pub fn step(self) -> BodyStep
        ensures { result ≡ step_of (stops_at self) }
    {
        match self {
            Position::Plain(0) => BodyStep::Ended,
            Position::Failed => BodyStep::Broken,
            _ => BodyStep::More,
        }
    }

    /// Goes over the first bytes, those of a chunk at once, and answers how many they are: none where there are none,
    /// or where the body is ended or has failed.
    pub fn skip(&mut self, bytes: &[u8]) -> usize
        ensures within { result ≤ length bytes.now }
        ensures skips { Skips self.old bytes.now result self.new }
        ensures none { result ≡ 0 → stops_at self.new ≡ Short → length bytes.now ≡ 0 }
    {
        match *self {
            Position::Plain(left) => {
                let count = left.min(bytes.len() as u64);
                *self = Position::Plain(left - count);
                count as usize
            }
            Position::Data(left) if left > 0 => {
                let count = left.min(bytes.len() as u64);
                *self = Position::Data(left - count);
                count as usize
            }
            Position::Failed => 0,
            _ => match bytes {
                [] => 0,
                [byte, ..] => {
                    *self = self.after(*byte);
                    1
                }
            },
        }
    }
}
