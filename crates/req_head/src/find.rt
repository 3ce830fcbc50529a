// Looking for a head in whole lines.
ghost use Rattle.std.specs.Prelude.{◌≡◌, ℕ, ◌≤◌, length};
ghost use Rattle.req_head.specs.Lines.{whole_lines};

use httparse::spans::{HeaderSpan, RequestSpans, parse_request};
use httparse::{Error, Status};

/// What whole lines begin with.
pub(crate) enum Scan {
    /// With what may still become a head.
    Short,
    /// With no head, whatever follows.
    Wrong,
    /// With a head.
    Whole(RequestSpans),
    /// With more fields than there are slots.
    NoRoom,
}

ghost use Rattle.req_head.specs.Scans.{IsScan};

/// Looks for a head at the front of whole lines.
pub(crate) fn find_head(text: &[u8], slots: &mut [HeaderSpan]) -> Scan
    requires short { length text.now ≤ 8192 }
    requires lines { whole_lines text.now ≡ text.now }
    ensures { IsScan text.now (length slots.old) slots.new result }
{
    match parse_request(text, slots) {
        Ok(Status::Complete(spans)) => Scan::Whole(spans),
        Ok(Status::Partial) => Scan::Short,
        Err(error) => match error {
            Error::TooManyHeaders => Scan::NoRoom,
            _ => Scan::Wrong,
        },
    }
}

/// The same with room for 64 fields.
pub(crate) fn find_head_of_64(text: &[u8], slots: &mut [HeaderSpan; 64]) -> Scan
    requires short { length text.now ≤ 8192 }
    requires lines { whole_lines text.now ≡ text.now }
    ensures { IsScan text.now 64 slots.new result }
{
    find_head(text, slots)
}
