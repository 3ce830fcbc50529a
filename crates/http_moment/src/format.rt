// Time formats.
ghost use Rattle.std.specs.Prelude.{◌≡◌, ◌+◌, ◌/◌, ◌%◌, ◌<◌, ◌≤◌, [], ◌∷◌, ◌++◌, OnOk, IfOk, MatchOption, if◌then◌else◌};
ghost use Rattle.httpdate.specs.Text.{two_digits as digit_pair, four_digits as digit_quad};
ghost use Rattle.http_moment.specs.Moment.{last_second};
ghost use Rattle.http_moment.specs.Civil.{parts_of};
ghost use Rattle.http_moment.specs.Shown.{conversion_of, conversion_text, full_day_name, full_month_name, short_day_name, short_month_name, spaced_day, half_of_day, hour_of_half, three_digits, is_format, shown_text};

use crate::calendar::Civil;
use crate::date::LAST_SECOND;
use byte_text::{ByteText, OutOfMemory};
use itoa::Buffer;

/// The time format of an SSI document that sets none, as in `Thursday, 01-Jan-1970 00:00:00 GMT`.
pub const DEFAULT_FORMAT: &[u8] = b"%A, %d-%b-%Y %H:%M:%S %Z";

/// What a conversion of a time format shows.
#[derive(Clone, Copy, Debug)]
pub enum Conversion {
    ShortWeekday,
    Weekday,
    ShortMonth,
    Month,
    Day,
    SpacedDay,
    Hour,
    HourOfHalf,
    DayOfYear,
    MonthNumber,
    Minute,
    HalfOfDay,
    Second,
    YearOfCentury,
    Year,
    ZoneName,
    ZoneOffset,
    Seconds,
    Percent,
}

/// The conversion that this byte after a `%` asks for.
#[tactic(auto, unfolding(crate::specs::Shown::conversion_of))]
fn read_conversion(code: u8) -> Option<Conversion>
    ensures { result ≡ conversion_of code }
{
    match code {
        b'a' => Some(Conversion::ShortWeekday),
        b'A' => Some(Conversion::Weekday),
        b'b' => Some(Conversion::ShortMonth),
        b'B' => Some(Conversion::Month),
        b'd' => Some(Conversion::Day),
        b'e' => Some(Conversion::SpacedDay),
        b'H' => Some(Conversion::Hour),
        b'I' => Some(Conversion::HourOfHalf),
        b'j' => Some(Conversion::DayOfYear),
        b'm' => Some(Conversion::MonthNumber),
        b'M' => Some(Conversion::Minute),
        b'p' => Some(Conversion::HalfOfDay),
        b'S' => Some(Conversion::Second),
        b'y' => Some(Conversion::YearOfCentury),
        b'Y' => Some(Conversion::Year),
        b'Z' => Some(Conversion::ZoneName),
        b'z' => Some(Conversion::ZoneOffset),
        b's' => Some(Conversion::Seconds),
        b'%' => Some(Conversion::Percent),
        _ => None,
    }
}

#[tactic(auto, unfolding(crate::specs::Shown::short_day_name))]
fn short_day(weekday: u8) -> &'static [u8]
    requires low { 1 ≤ weekday }
    requires high { weekday ≤ 7 }
    ensures { result.now ≡ short_day_name weekday }
{
    match weekday {
        1 => b"Mon",
        2 => b"Tue",
        3 => b"Wed",
        4 => b"Thu",
        5 => b"Fri",
        6 => b"Sat",
        _ => b"Sun",
    }
}

#[tactic(auto, unfolding(crate::specs::Shown::full_day_name))]
fn full_day(weekday: u8) -> &'static [u8]
    requires low { 1 ≤ weekday }
    requires high { weekday ≤ 7 }
    ensures { result.now ≡ full_day_name weekday }
{
    match weekday {
        1 => b"Monday",
        2 => b"Tuesday",
        3 => b"Wednesday",
        4 => b"Thursday",
        5 => b"Friday",
        6 => b"Saturday",
        _ => b"Sunday",
    }
}

#[tactic(auto, unfolding(crate::specs::Shown::short_month_name))]
fn short_month(month: u8) -> &'static [u8]
    requires low { 1 ≤ month }
    requires high { month ≤ 12 }
    ensures { result.now ≡ short_month_name month }
{
    match month {
        1 => b"Jan",
        2 => b"Feb",
        3 => b"Mar",
        4 => b"Apr",
        5 => b"May",
        6 => b"Jun",
        7 => b"Jul",
        8 => b"Aug",
        9 => b"Sep",
        10 => b"Oct",
        11 => b"Nov",
        _ => b"Dec",
    }
}

#[tactic(auto, unfolding(crate::specs::Shown::full_month_name))]
fn full_month(month: u8) -> &'static [u8]
    requires low { 1 ≤ month }
    requires high { month ≤ 12 }
    ensures { result.now ≡ full_month_name month }
{
    match month {
        1 => b"January",
        2 => b"February",
        3 => b"March",
        4 => b"April",
        5 => b"May",
        6 => b"June",
        7 => b"July",
        8 => b"August",
        9 => b"September",
        10 => b"October",
        11 => b"November",
        _ => b"December",
    }
}

fn two_digits(n: u8) -> [u8; 2]
    ensures { result ≡ digit_pair n }
{
    [b'0' + n / 10, b'0' + n % 10]
}

#[tactic(auto, unfolding(crate::specs::Shown::three_digits))]
fn day_digits(n: u16) -> [u8; 3]
    requires { n < 1000 }
    ensures { result ≡ three_digits n }
{
    let [tens, ones] = two_digits((n % 100) as u8);
    [b'0' + (n / 100) as u8, tens, ones]
}

fn year_digits(n: u16) -> [u8; 4]
    requires { n < 10000 }
    ensures { result ≡ digit_quad n }
{
    let [thousands, hundreds] = two_digits((n / 100) as u8);
    let [tens, ones] = two_digits((n % 100) as u8);
    [thousands, hundreds, tens, ones]
}

#[tactic(auto, unfolding(crate::specs::Shown::spaced_day))]
fn spaced_digits(day: u8) -> [u8; 2]
    ensures { result ≡ spaced_day day }
{
    if day < 10 {
        [b' ', b'0' + day]
    } else {
        two_digits(day)
    }
}

#[tactic(auto, unfolding(crate::specs::Shown::hour_of_half))]
fn hour_from_noon(hour: u8) -> u8
    ensures { result ≡ hour_of_half hour }
{
    if hour % 12 == 0 { 12 } else { hour % 12 }
}

#[tactic(auto, unfolding(crate::specs::Shown::half_of_day))]
fn half(hour: u8) -> &'static [u8]
    ensures { result.now ≡ half_of_day hour }
{
    if hour < 12 { b"AM" } else { b"PM" }
}

/// Appends what a conversion shows of the date, which is that of the second.
#[tactic(auto, unfolding(crate::specs::Shown::conversion_text, crate::specs::Shown::zone_name, crate::specs::Shown::zone_offset, crate::specs::Shown::day_of_year))]
fn put(secs: u64, date: &Civil, kind: Conversion, out: &mut ByteText) -> Result<(), OutOfMemory>
    ensures { OnOk result (out.new ≡ out.old ++ conversion_text secs (parts_of date.now) kind) }
{
    match kind {
        Conversion::ShortWeekday => out.extend(short_day(date.weekday)),
        Conversion::Weekday => out.extend(full_day(date.weekday)),
        Conversion::ShortMonth => out.extend(short_month(date.month)),
        Conversion::Month => out.extend(full_month(date.month)),
        Conversion::Day => out.extend(&two_digits(date.day)),
        Conversion::SpacedDay => out.extend(&spaced_digits(date.day)),
        Conversion::Hour => out.extend(&two_digits(date.hour)),
        Conversion::HourOfHalf => out.extend(&two_digits(hour_from_noon(date.hour))),
        Conversion::DayOfYear => out.extend(&day_digits(date.day_of_year)),
        Conversion::MonthNumber => out.extend(&two_digits(date.month)),
        Conversion::Minute => out.extend(&two_digits(date.minute)),
        Conversion::HalfOfDay => out.extend(half(date.hour)),
        Conversion::Second => out.extend(&two_digits(date.second)),
        Conversion::YearOfCentury => out.extend(&two_digits((date.year % 100) as u8)),
        Conversion::Year => out.extend(&year_digits(date.year)),
        Conversion::ZoneName => out.extend(b"GMT"),
        Conversion::ZoneOffset => out.extend(b"+0000"),
        Conversion::Seconds => out.extend(Buffer::new().format(secs).as_bytes()),
        Conversion::Percent => out.push(b'%'),
    }
}

/// The first byte, and those after it.
fn front(bytes: &[u8]) -> Option<(u8, &[u8])>
    ensures { MatchOption result (bytes.now ≡ []) (λ p. bytes.now ≡ p.0 ∷ p.1.now) }
{
    match bytes {
        [first, rest @ ..] => Some((*first, rest)),
        [] => None,
    }
}

/// Whether each `%` of the format begins a conversion that [`shown`] knows. It takes no memory.
pub fn is_time_format(format: &[u8]) -> bool
    ensures { result ≡ is_format format.now }
{
    let mut rest = format;
    while let Some((first, after)) = front(rest) {
        if first != b'%' {
            rest = after;
            continue;
        }
        let Some((code, behind)) = front(after) else {
            return false;
        };
        let Some(_) = read_conversion(code) else {
            return false;
        };
        rest = behind;
    }
    true
}

/// Appends the format with each conversion in place of its `%` and letter, at a second of UTC: those of C's strftime
/// that SSI documents use, with English names. Past the year 9999 its last second is taken in its place.
///
/// It answers false exactly at a `%` that begins no conversion, and has then appended what comes before it. After want
/// of memory `out` has some part of the text.
pub fn shown(format: &[u8], secs: u64, out: &mut ByteText) -> Result<bool, OutOfMemory>
    ensures known { IfOk result (λ whole. whole ≡ is_format format.now) }
    ensures text { OnOk result (out.new ≡ out.old ++ shown_text secs format.now) }
{
    let second = secs.min(LAST_SECOND);
    let date = Civil::of(second);
    let mut rest = format;
    while let Some((first, after)) = front(rest) {
        if first != b'%' {
            out.push(first)?;
            rest = after;
            continue;
        }
        let Some((code, behind)) = front(after) else {
            return Ok(false);
        };
        let Some(kind) = read_conversion(code) else {
            return Ok(false);
        };
        put(second, &date, kind, out)?;
        rest = behind;
    }
    Ok(true)
}
