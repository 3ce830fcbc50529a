// The text of a request's moment.
ghost use Rattle.std.specs.Prelude.{◌≡◌, ◌++◌, OnOk};
ghost use Rattle.http_moment.specs.Shown.{shown_text, default_format};

use crate::format::{DEFAULT_FORMAT, shown};
use byte_text::{ByteText, OutOfMemory};
use std::marker::Model;

/// The date of a moment. A contract sees it as the moment's text of the default format, which is made only for who asks for it.
#[derive(Drop)]
pub struct LocalDate {
    moment: u64,
}

impl Model for LocalDate {
    ghost use Rattle.std.specs.Prelude.{List, ℕ};
    ghost use Rattle.http_moment.specs.Shown.{shown_text, default_format};

    ghost Value = { List ℕ };

    ghost view = { λ d. shown_text d.moment default_format };
}

impl LocalDate {
    ghost use Rattle.std.specs.Prelude.{◌≡◌, ◌++◌, OnOk};
    ghost use Rattle.http_moment.specs.Shown.{shown_text, default_format};

    /// The date of a moment in seconds since 1970.
    pub fn of(moment: u64) -> Self
        ensures { result ≡ shown_text moment default_format }
    {
        LocalDate { moment }
    }

    /// Appends the text to `out`. After want of memory `out` has some part of it.
    #[tactic(auto, unfolding(crate::specs::Shown::default_format))]
    pub fn append_to(&self, out: &mut ByteText) -> Result<(), OutOfMemory>
        ensures { OnOk result (out.new ≡ out.old ++ self.now) }
    {
        shown(DEFAULT_FORMAT, self.moment, out)?;
        Ok(())
    }
}
