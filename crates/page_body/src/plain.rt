// A file of which filters change nothing.
ghost use Rattle.std.specs.Prelude.{◌≡◌, ℕ, true};
ghost use Rattle.acts.specs.Vars.{Vars};
ghost use Rattle.family_meaning.specs.request_meaning.Laws.{shipped};
ghost use Rattle.family_meaning.specs.request_meaning.Serving.{Answer, World};
ghost use Rattle.page_body.specs.Pages.{filtered_rest};
ghost use Rattle.page_body.specs.Reading.{IsWritten};

use crate::parts::{is_added, is_split};
use filter_api::Facts;
use ssi_text::is_text;

/// Whether filters change nothing of a body whose whole file is this text: no command is in it, and nothing is added to it. Then
/// no page has to be made for it. An empty file is left to its page.
pub fn is_plain(facts: &Facts, text: &[u8]) -> bool
    ensures { result ≡ true → (w : World) (left : ℕ) (ssi : Vars) (answer : Answer) →
        w.members ≡ shipped
        → IsWritten text.now (filtered_rest w left ssi answer facts.now text.now) answer }
{
    if text.is_empty() || is_added(facts) {
        return false;
    }
    !is_split(facts) || is_text(text)
}
