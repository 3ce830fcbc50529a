// What is sent for what phases decided.
ghost use Rattle.std.specs.Prelude.{◌≡◌, ◌||◌, ◌&&◌, not, Bool, true, false, ℕ, List, None, Some, option_map, length, IfOk, if◌then◌else◌};
ghost use Rattle.error_page.specs.Page.{page_of};
ghost use Rattle.request_meaning.specs.Serving.{World};
ghost use Rattle.request_meaning.specs.Answering.{page_to, read_of, sent as sent_of, closed as closed_of};
ghost use Rattle.request_phases.specs.rewrite_code.Places.{standing_seen};
ghost use Rattle.request_phases.specs.site_model.declared.site.Site.{Site as SiteRow};
ghost use Rattle.request_phases.specs.declared.state.Phases.{Phases as PhasesView};
ghost use Rattle.request_phases.specs.Rounds.{asked_in, prepared_as};
ghost use Rattle.request_meaning.specs.Laws.{shipped};
ghost use Rattle.request_reply.specs.Replies.{IsReply, FitsFile, body_seen, is_sent, status_in};
ghost use Rattle.request_reply.specs.declared.reply.Body.TheVariants.{Nothing as NothingView};
ghost use Rattle.request_meaning.specs.Serving.Body.{Plain};

use crate::filters::facts_if;
use crate::redirect::redirect_target;
use crate::status::{
    has_no_body, is_bodiless, is_closing, is_main, is_unmodified, sends_nothing, shown_date,
    shown_status,
};
use byte_text::{ByteText, OutOfMemory};
use error_page::page_len;
use filter_api::Facts;
use request_phases::site_model::Site;
use request_phases::{Conclusion, Phases};
use std::alloc::Global;

/// What is sent as the body.
#[derive(Drop)]
pub enum Body {
    Nothing,
    /// The built-in page of a code.
    Page(u16),
    Text(ByteText),
    /// The bytes of the file at the path that was asked for last.
    File,
}

/// What a request is replied: what the head of the response says, and the body.
#[derive(Drop)]
pub struct Reply<'a> {
    pub status: u16,
    /// The media type of Content-Type.
    pub kind: Option<&'a [u8]>,
    /// The length of the content in bytes, where it is known, whether it is sent or not; and whether it is.
    pub length: Option<u64>,
    pub known: bool,
    /// The second of Last-Modified, since the beginning of 1970.
    pub modified: Option<u64>,
    /// The target of Location.
    pub location: Option<ByteText>,
    /// Whether an error closes the connection after the response.
    pub closes: bool,
    /// Whether the connection is closed at once, without a response.
    pub gone: bool,
    /// How many bytes of a file are read for it, where it is one.
    pub read: Option<u64>,
    /// What the body filters are told of the body, where one acts on it.
    pub facts: Option<Facts>,
    pub body: Body,
}

/// The built-in page of a code, with the target of a redirect.
#[tactic(auto, unfolding(request_meaning::specs::Answering::page_to, request_meaning::specs::Answering::page_answer))]
fn page(phases: &Phases, code: u16, to: Option<ByteText>) -> Reply<'static>
    ensures { (site : SiteRow) (bytes : List ℕ) → IsReply result bytes
        (page_to (asked_in phases.now) (standing_seen site phases.now.at) code to) }
{
    let body = if has_no_body(&phases.main, &phases.at.request) {
        Body::Nothing
    } else {
        Body::Page(code)
    };
    Reply {
        status: code,
        kind: Some(b"text/html"),
        length: Some(page_len(code)),
        known: true,
        modified: None,
        location: to,
        closes: phases.closes || (is_main(phases.role) && is_closing(code)),
        gone: false,
        read: None,
        facts: None,
        body,
    }
}

/// The connection is closed without an answer.
#[tactic(auto, unfolding(request_meaning::specs::Answering::closed_answer))]
fn closed() -> Reply<'static>
    ensures { (site : SiteRow) (phases : PhasesView) (bytes : List ℕ) → IsReply result bytes
        (closed_of (asked_in phases) (standing_seen site phases.at)) }
{
    Reply {
        status: 444,
        kind: None,
        length: Some(0),
        known: true,
        modified: None,
        location: None,
        closes: true,
        gone: true,
        read: None,
        facts: None,
        body: Body::Nothing,
    }
}

/// The status, or 304 where a file on which no filter acts was not modified since the date that the request names.
#[inline(always)]
fn status_of(phases: &Phases, shown: u16, filtered: bool, date: Option<u64>) -> u16
    ensures { result ≡ status_in phases.now shown filtered date }
{
    if is_unmodified(&phases.main, &phases.at.request, shown, filtered, date) {
        return 304;
    }
    shown
}

fn kind_unless(bodiless: bool, kind: &[u8]) -> Option<&[u8]>
    ensures { option_map (λ k. k.now) result ≡ (if bodiless then None else Some kind.now) }
{
    if bodiless {
        return None;
    }
    Some(kind)
}

fn length_unless(untold: bool, len: u64) -> Option<u64>
    ensures { result ≡ (if untold then None else Some len) }
{
    if untold {
        return None;
    }
    Some(len)
}

fn body_unless(nothing: bool, body: Body) -> Body
    ensures { result ≡ (if nothing then NothingView else body) }
{
    if nothing {
        return Body::Nothing;
    }
    body
}

/// A head tells no length of a response without content, nor of what filters make.
fn is_untold(bodiless: bool, filtered: bool) -> bool
    ensures { result ≡ (bodiless || filtered) }
{
    bodiless || filtered
}

fn is_known(bodiless: bool, filtered: bool) -> bool
    ensures { result ≡ (bodiless || not filtered) }
{
    bodiless || !filtered
}

fn facts_unless(nothing: bool, facts: Option<Facts>) -> Option<Facts>
    ensures { result ≡ (if nothing then None else facts) }
{
    if nothing {
        return None;
    }
    facts
}

/// How many bytes are read of a file of this length, where it is one.
fn read_unless(nothing: bool, date: Option<u64>, len: u64) -> Option<u64>
    ensures { (bytes : List ℕ) → length bytes ≡ len → result ≡ read_of nothing date bytes }
{
    match date {
        Some(_) => length_unless(nothing, len),
        None => None,
    }
}

/// A text or a file, of this length, that is answered with a status of its own.
#[inline(always)]
fn sent<'a>(
    site: &'a Site,
    phases: &Phases,
    own: u16,
    len: u64,
    date: Option<u64>,
    body: Body,
) -> Reply<'a>
    ensures { (w : World) (bytes content : List ℕ) → w.members ≡ shipped
        → body_seen bytes None body ≡ Plain content → length content ≡ len → is_sent body ≡ true
        → IsReply result bytes
        (sent_of w (asked_in phases.now) (standing_seen site.now phases.now.at) own content date) }
{
    let path = phases.at.request.path.as_slice();
    let kind = site.types(site.level(phases.at.level).types).type_of(path);
    let shown = shown_status(phases.error, own);
    let facts = facts_if(site, phases, shown, kind);
    let filtered = facts.is_some();
    let status = status_of(phases, shown, filtered, date);
    let bodiless = is_bodiless(status);
    let nothing = sends_nothing(&phases.main, &phases.at.request, status);
    Reply {
        status,
        kind: kind_unless(bodiless, kind),
        length: length_unless(is_untold(bodiless, filtered), len),
        known: is_known(bodiless, filtered),
        modified: shown_date(status, filtered, date),
        location: None,
        closes: phases.closes,
        gone: false,
        read: read_unless(nothing, date, len),
        facts: facts_unless(nothing, facts),
        body: body_unless(nothing, body),
    }
}

/// What a request is replied for what its phases decided.
#[inline(always)]
pub fn reply_of<'a>(
    alloc: Global,
    site: &'a Site,
    phases: &Phases,
    outcome: Conclusion,
) -> Result<Reply<'a>, OutOfMemory>
    ensures { IfOk result (λ reply. (w : World) (bytes : List ℕ)
        → w.members ≡ shipped → FitsFile outcome bytes
        → IsReply reply bytes (prepared_as w (asked_in phases.now)
        (standing_seen site.now phases.now.at) bytes outcome)) }
{
    match outcome {
        Conclusion::Text { code, text } => {
            let len = text.len() as u64;
            Ok(sent(site, phases, code, len, None, Body::Text(text)))
        }
        Conclusion::File { len, date } => {
            Ok(sent(site, phases, 200, len, Some(date), Body::File))
        }
        Conclusion::Page(code) => Ok(page(phases, code, None)),
        Conclusion::Redirect { code, to } => {
            let level = site.level(phases.at.level);
            let to = redirect_target(alloc, level, &phases.main, to)?;
            Ok(page(phases, code, to))
        }
        Conclusion::Close => Ok(closed()),
    }
}
