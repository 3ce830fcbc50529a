// Dates in header fields.
ghost use Rattle.std.specs.Prelude.{◌≡◌, ◌<◌, ◌≤◌, ◌↔◌, IfSome, IfNone, IsSome};
ghost use Rattle.httpdate.specs.Date.{parse_secs, IsDateText, unix_secs};
ghost use Rattle.httpdate.specs.declared.date.HttpDate.{HttpDate as Date};
ghost use Rattle.http_moment.specs.Moment.{date_of};

use httpdate::HttpDate;

/// The last second of the year 9999, the greatest that has a date of four digits.
pub const LAST_SECOND: u64 = 253_402_300_799;

/// The date of a second in a header field, as `Sun, 06 Nov 1994 08:49:37 GMT`: the IMF-fixdate of RFC 9110, 5.6.7.
/// Past the year 9999 it is that year's last second. It takes no memory.
pub fn date_text(secs: u64) -> [u8; 29]
    ensures { result ≡ date_of secs }
{
    HttpDate::from_unix_secs(secs.min(LAST_SECOND))
        .unwrap()
        .to_bytes()
}

/// The second that a date in a header field names, in one of the three forms of RFC 9110, 5.6.7: IMF-fixdate and the
/// obsolete forms of RFC 850 and of asctime. There is none exactly where the bytes are no date from 1970 to 9999 in
/// one of these forms; white space round the date is none of it. It takes no memory.
pub fn read_date(bytes: &[u8]) -> Option<u64>
    ensures value { result ≡ parse_secs bytes.now }
    ensures shown { IfSome result (λ secs. (date : Date) × IsDateText bytes.now date
        × (unix_secs date ≡ secs)) }
    ensures none { IfNone result ((date : Date) → ¬ (IsDateText bytes.now date)) }
{
    match HttpDate::parse_ascii(bytes) {
        Ok(date) => Some(date.unix_secs()),
        Err(_) => None,
    }
}

/// A date text that is kept, so that the responses of one second share it.
#[derive(Drop)]
pub struct DateCache {
    secs: u64,
    text: [u8; 29],
    ghost right: { text ≡ date_of secs },
}

impl DateCache {
    /// Keeps the date of a second. It takes no memory.
    pub fn new(secs: u64) -> DateCache {
        DateCache {
            secs,
            text: date_text(secs),
        }
    }

    /// The same as [`date_text`], which it writes anew only where the second is another than before.
    pub fn date_text(&mut self, secs: u64) -> &[u8; 29]
        ensures { result.now ≡ date_of secs }
    {
        if secs != self.secs {
            self.secs = secs;
            self.text = date_text(secs);
        }
        &self.text
    }
}
