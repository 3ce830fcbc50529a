// Which rule applies to an error.
ghost use Rattle.std.specs.Prelude.{◌≡◌, ◌==◌, ◌&&◌, ◌||◌, not, map, option_map, option_copied, find};
ghost use Rattle.site_whole.specs.Whole.{page_seen, shown_seen};
ghost use Rattle.request_meaning.specs.Errors.{rule_for, url_code as code_shown};
ghost use Rattle.request_meaning.specs.Rewriting.{is_redirect as redirects};
ghost use Rattle.error_pages.specs.Pages.{names_code, applies};

use site_whole::site_model::{PageRule, Shown};

/// How far the errors of a request were handled.
#[derive(Clone, Copy)]
pub struct Handling {
    /// Whether an error of this request was handled before.
    pub used: bool,
    /// Whether `recursive_error_pages` is on.
    pub recursive: bool,
    /// How many changes of the request are left.
    pub changes: u8,
}

/// Whether an error may go to a page: while a change is left, and once for a request unless `recursive_error_pages` is on.
pub fn may_apply(handling: Handling) -> bool
    ensures { result ≡ applies handling.changes handling.used handling.recursive }
{
    handling.changes != 0 && (handling.recursive || !handling.used)
}

fn names(rule: &PageRule, code: u16) -> bool
    ensures { result ≡ names_code code (page_seen rule.now) }
{
    for named in &rule.codes {
        if *named == code {
            return true;
        }
    }
    false
}

/// The first rule that names a code. Codes below 400 never have one.
#[tactic(auto, unfolding(request_meaning::specs::Errors::rule_for))]
pub fn rule_for(rules: &[PageRule], code: u16) -> Option<&PageRule>
    ensures { option_map page_seen (option_copied result)
        ≡ rule_for (map page_seen rules.now) code }
{
    if code < 400 {
        return None;
    }
    first_naming(rules, code)
}

fn first_naming(rules: &[PageRule], code: u16) -> Option<&PageRule>
    ensures { option_map page_seen (option_copied result)
        ≡ find (names_code code) (map page_seen rules.now) }
{
    for rule in rules {
        if names(rule, code) {
            return Some(rule);
        }
    }
    None
}

fn is_redirect(code: u16) -> bool
    ensures { result ≡ redirects code }
{
    code == 301 || code == 302 || code == 303 || code == 307 || code == 308
}

/// The code of a redirect to a whole address: that of `=N` where it is one, else 302.
pub fn url_code(shown: Shown) -> u16
    ensures { result ≡ code_shown (shown_seen shown) }
{
    match shown {
        Shown::OwnCode => 302,
        Shown::Fixed(code) => { if is_redirect(code) { code } else { 302 } }
        Shown::ByAnswer => 302,
    }
}
