//! Moments in seconds since the beginning of 1970, as HTTP writes and reads them.
#![tactic(auto)]

mod calendar;
mod date;
mod format;
mod laws;
mod local_date;

pub use date::{DateCache, LAST_SECOND, date_text, read_date};
pub use format::{DEFAULT_FORMAT, is_time_format, shown};
pub use laws::{calendar_is_right, date_is_visible, date_reads_back};
pub use local_date::LocalDate;
