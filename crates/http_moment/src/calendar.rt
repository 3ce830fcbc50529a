// The calendar date of a second.
ghost use Rattle.std.specs.Prelude.{◌≡◌, ◌+◌, ◌-◌, ◌<◌, ◌≤◌};
ghost use Rattle.httpdate.specs.Calendar as Calendar;

/// A date of the Gregorian calendar and a time of day.
#[derive(Clone, Copy)]
pub struct Civil {
    pub year: u16,
    pub month: u8,
    pub day: u8,
    pub hour: u8,
    pub minute: u8,
    pub second: u8,
    /// Monday is 1.
    pub weekday: u8,
    /// 1 January is 1.
    pub day_of_year: u16,
    ghost year_range: { year ≤ 9999 },
    ghost month_low: { 1 ≤ month },
    ghost month_high: { month ≤ 12 },
    ghost weekday_low: { 1 ≤ weekday },
    ghost weekday_high: { weekday ≤ 7 },
    ghost day_range: { day_of_year ≤ 366 },
    ghost counted: { day_of_year ≡ Calendar.days_of_months year (month - 1) + day },
}

fn is_leap_year(year: u16) -> bool
    ensures { result ≡ Calendar.is_leap_year year }
{
    year % 4 == 0 && (year % 100 != 0 || year % 400 == 0)
}

fn days_in_year(year: u16) -> u32
    ensures { result ≡ Calendar.days_in_year year }
{
    if is_leap_year(year) { 366 } else { 365 }
}

fn days_in_month(year: u16, month: u8) -> u32
    ensures { result ≡ Calendar.days_in_month year month }
{
    match month {
        2 => if is_leap_year(year) { 29 } else { 28 },
        4 | 6 | 9 | 11 => 30,
        _ => 31,
    }
}

/// The days from the beginning of 1970 to that of a year.
fn days_before_year(year: u16) -> u32
    requires { 1970 ≤ year }
    ensures { result ≡ Calendar.days_of_years (year - 1970) }
{
    // From the beginning of 1601, where a cycle of 400 years begins that ends in a leap year.
    let past = year as u32 - 1601;
    past * 365 + past / 4 - past / 100 + past / 400 - 134_774
}

/// The year of a day, and how many days of the year have passed.
fn year_of(days: u32) -> (u16, u32)
    requires { days < 2_932_897 }
    ensures low { 1970 ≤ result.0 }
    ensures high { result.0 ≤ 9999 }
    ensures within { result.1 < Calendar.days_in_year result.0 }
    ensures value { Calendar.days_of_years (result.0 - 1970) + result.1 ≡ days }
{
    // Years are shorter than 367 days, so this year is none too late; and it is at most 17 too early.
    let mut year = 1970 + (days / 366) as u16;
    let mut left = days - days_before_year(year);
    loop {
        let len = days_in_year(year);
        if left < len {
            return (year, left);
        }
        left -= len;
        year += 1;
    }
}

/// The month of a day of the year, and how many days of the month have passed.
fn month_of(year: u16, days: u32) -> (u8, u8)
    requires { days < Calendar.days_in_year year }
    ensures low { 1 ≤ result.0 }
    ensures high { result.0 ≤ 12 }
    ensures within { result.1 < Calendar.days_in_month year result.0 }
    ensures value { Calendar.days_of_months year (result.0 - 1) + result.1 ≡ days }
{
    let mut left = days;
    for month in 1..12 {
        let len = days_in_month(year, month);
        if left < len {
            return (month, left as u8);
        }
        left -= len;
    }
    (12, left as u8)
}

impl Civil {
    ghost use Rattle.http_moment.specs.Moment.{calendar, last_second};
    ghost use Rattle.http_moment.specs.Civil.{parts_of};

    /// The date and the time of day of a second.
    pub fn of(secs: u64) -> Civil
        requires { secs ≤ last_second }
        ensures { parts_of result ≡ calendar secs }
    {
        let days = (secs / 86400) as u32;
        let clock = (secs % 86400) as u32;
        let (year, day_of_year) = year_of(days);
        let (month, day) = month_of(year, day_of_year);
        Civil {
            year,
            month,
            day: day + 1,
            hour: (clock / 3600) as u8,
            minute: (clock % 3600 / 60) as u8,
            second: (clock % 60) as u8,
            weekday: ((days + 3) % 7 + 1) as u8,
            day_of_year: day_of_year as u16 + 1,
        }
    }
}
