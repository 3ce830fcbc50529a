// What holds of every second, and of every date that is read.
ghost use Rattle.http_moment.specs.Moment.{CalendarIsRight, DateIsVisible, DateReadsBack};

/// The date of a second, by whole years and then whole months from 1970 on, is one of the Gregorian calendar, and
/// the seconds from the beginning of 1970 to it are that number.
pub fn calendar_is_right()
    ensures { CalendarIsRight }
{}

/// The text that [`date_text`](crate::date_text) gives is read by [`read_date`](crate::read_date) as the same second, up to
/// the last one of the year 9999.
pub fn date_reads_back()
    ensures { DateReadsBack }
{}

/// The text that [`date_text`](crate::date_text) gives has visible bytes and spaces alone, so neither CR nor LF.
pub fn date_is_visible()
    ensures { DateIsVisible }
{}
