// The status that is shown, and what follows from it.
ghost use Rattle.std.specs.Prelude.{◌≡◌, ◌==◌, ◌&&◌, ◌||◌, not, Bool, true, false, None, Some, option_map, option_and_then};
ghost use Rattle.http_header.specs.HeaderMap.{get};
ghost use Rattle.httpdate.specs.Date.{parse_secs};
ghost use Rattle.request_phases.specs.ngx_variables.Grammar.{lowercase};
ghost use Rattle.http_types.specs.declared.words.Method.{Method as MethodView};
ghost use Rattle.request_phases.specs.ngx_variables.declared.request.Main.{Main as MainView};
ghost use Rattle.resp_head.specs.Head.{is_bodiless as has_no_content};
ghost use Rattle.request_meaning.specs.Serving.{is_main_role, is_head as is_head_method};
ghost use Rattle.request_meaning.specs.Answering.{shown_status as status_shown, is_unmodified as unmodified, has_no_body as sends_no_body, shown_date as date_shown, is_closing as closes_for, since_date as date_since, same_date as dates_same, first_bytes as bytes_first};
ghost use Rattle.request_phases.specs.Rounds.{handled_seen};

use http_moment::read_date;
use http_types::Method;
use request_phases::Handled;
use request_phases::ngx_variables::{Main, Request, Role};
use request_phases::req_head::HeadFields;
use request_phases::site_model::Shown;

/// Whether a response of this status has no content (RFC 9110, 15.3.5 and 15.4.5).
#[tactic(auto, unfolding(resp_head::specs::Head::is_bodiless))]
pub(crate) fn is_bodiless(status: u16) -> bool
    ensures { result ≡ has_no_content status }
{
    status == 204 || status == 304
}

/// An error of one of these codes of a main request closes the connection after its response.
pub(crate) fn is_closing(code: u16) -> bool
    ensures { result ≡ closes_for code }
{
    code == 400 || code == 413 || code == 414 || code == 500 || code == 501
}

pub(crate) fn is_main(role: Role) -> bool
    ensures { result ≡ is_main_role role }
{
    match role {
        Role::Main => true,
        Role::Content => false,
        Role::Auth => false,
    }
}

fn is_head(method: &Method) -> bool
    ensures { result ≡ is_head_method method.now }
{
    match method {
        Method::Head => true,
        Method::Get => false,
        Method::Post => false,
        Method::Other(_) => false,
    }
}

/// Nothing is sent as a body to HEAD (RFC 9110, 9.3.2), nor for a subrequest that is asked for its status alone.
pub(crate) fn has_no_body(main: &Main, request: &Request) -> bool
    ensures { result ≡ sends_no_body main.now request.now }
{
    match request.role {
        Role::Main => is_head(&main.method),
        Role::Content => false,
        Role::Auth => true,
    }
}

/// Nothing is sent with a status that has no content, and to a request that gets no body.
pub(crate) fn sends_nothing(main: &Main, request: &Request, status: u16) -> bool
    ensures { result ≡ (has_no_content status || sends_no_body main.now request.now) }
{
    is_bodiless(status) || has_no_body(main, request)
}

/// The status that is shown: the answer's own, or by the error that was handled
/// (<https://nginx.org/en/docs/http/ngx_http_core_module.html#error_page>).
pub(crate) fn shown_status(error: Option<Handled>, own: u16) -> u16
    ensures { result ≡ status_shown (handled_seen error) own }
{
    match error {
        None => own,
        Some(Handled { code, shown }) => match shown {
            Shown::OwnCode => code,
            Shown::Fixed(status) => status,
            Shown::ByAnswer => own,
        },
    }
}

/// The first field of a name.
fn first_field<'a>(fields: &'a HeadFields, name: &[u8]) -> Option<&'a [u8]>
    ensures { option_map (λ b. b.now) result ≡ bytes_first (get fields.now (lowercase name.now)) }
{
    fields.first(name)
}

/// The date that a text names, if there is one.
fn date_in(text: Option<&[u8]>) -> Option<u64>
    ensures { result ≡ option_and_then parse_secs (option_map (λ b. b.now) text.entry) }
{
    match text {
        Some(bytes) => read_date(bytes),
        None => None,
    }
}

/// The date that If-Modified-Since names (RFC 9110, 13.1.3).
#[tactic(auto, unfolding(request_meaning::specs::Answering::since_date))]
fn since_date(main: &Main) -> Option<u64>
    ensures { result ≡ date_since main.now }
{
    date_in(first_field(&main.fields, b"if-modified-since"))
}

fn same_date(date: Option<u64>, since: Option<u64>) -> bool
    ensures { result ≡ dates_same date since }
{
    match (date, since) {
        (Some(date), Some(since)) => date == since,
        (Some(_), None) => false,
        (None, _) => false,
    }
}

/// Whether a file's date is the one that the request names, which is looked for only where there is a file.
fn is_same(main: &Main, date: Option<u64>) -> bool
    ensures { result ≡ dates_same date (date_since main.now) }
{
    match date {
        Some(_) => same_date(date, since_date(main)),
        None => false,
    }
}

/// A file of the main request that was not modified since then, and on which no filter acts.
#[tactic(auto, unfolding(request_meaning::specs::Answering::is_unmodified))]
pub(crate) fn is_unmodified(
    main: &Main,
    request: &Request,
    status: u16,
    filtered: bool,
    date: Option<u64>,
) -> bool
    ensures { result ≡ unmodified main.now request.now status filtered date }
{
    is_main(request.role) && status == 200 && !filtered && is_same(main, date)
}

/// The date of a file is told where it is sent, or is not modified, and no filter acts on it.
pub(crate) fn shown_date(status: u16, filtered: bool, date: Option<u64>) -> Option<u64>
    ensures { result ≡ date_shown status filtered date }
{
    if !filtered && (status == 200 || status == 304) {
        return date;
    }
    None
}
