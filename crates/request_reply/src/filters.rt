// Which body filters act on a body (<https://nginx.org/en/docs/http/ngx_http_ssi_module.html#ssi_types>,
// ngx_http_addition_module.html#addition_types).
ghost use Rattle.std.specs.Prelude.{◌≡◌, ◌&&◌, ◌||◌, bytes_eq, codes, if◌then◌else◌, Some, None};
ghost use Rattle.std.specs.List.{list_any};
ghost use Rattle.request_phases.specs.rewrite_code.Places.{standing_seen};
ghost use Rattle.request_phases.specs.site_whole.Whole.{media_at};
ghost use Rattle.request_meaning.specs.Answering.{facts_of, is_among as is_in_media};
ghost use Rattle.request_phases.specs.site_model.Levels.{raw_level};
ghost use Rattle.request_reply.specs.Replies.{acts_on, names_filters as filters_named};

use crate::status::is_main;
use byte_text::ByteText;
use filter_api::Facts;
use request_phases::Phases;
use request_phases::site_model::{Level, MediaTypes, Site};

fn is_listed(kind: &[u8], types: &[ByteText]) -> bool
    ensures { result ≡ list_any (bytes_eq kind.now) types.now }
{
    types.iter().any(|text| kind == text.as_slice())
}

fn is_html(kind: &[u8]) -> bool
    ensures { result ≡ bytes_eq kind.now (codes "text/html") }
{
    kind == b"text/html".as_slice()
}

/// Whether a media type is one of a list of the site's, to which text/html belongs.
fn is_among(site: &Site, number: Option<u32>, kind: &[u8], html: bool) -> bool
    requires { html ≡ bytes_eq kind.now (codes "text/html") }
    ensures { result ≡ is_in_media (media_at site.now number) kind.now }
{
    if html {
        return true;
    }
    let Some(number) = number else {
        return false;
    };
    match site.media.get(number as usize) {
        Some(MediaTypes { every, types }) => *every || is_listed(kind, types.as_slice()),
        None => false,
    }
}

/// Whether server side includes or additions are named at a level.
fn names_filters(level: &Level) -> bool
    ensures { result ≡ filters_named level.now }
{
    level.ssi || level.before.is_some() || level.after.is_some()
}

/// What the filters are told of a body with this status and media type.
fn told(site: &Site, level: &Level, phases: &Phases, status: u16, kind: &[u8]) -> Facts
    requires { level.now ≡ raw_level site.now phases.now.at.level }
    ensures { result ≡ facts_of (standing_seen site.now phases.now.at) status kind.now }
{
    let html = is_html(kind);
    Facts {
        ssi: level.ssi,
        ssi_type: is_among(site, level.ssi_types, kind, html),
        before: level.before.is_some(),
        after: level.after.is_some(),
        addition_type: is_among(site, level.addition_types, kind, html),
        status,
        main: is_main(phases.at.request.role),
    }
}

/// Whether a filter acts on a body of which these facts hold.
fn acts(facts: &Facts) -> bool
    ensures { result ≡ acts_on facts.now }
{
    (facts.ssi && facts.ssi_type)
        || (facts.main
            && (facts.status == 200 && (facts.addition_type && (facts.before || facts.after))))
}

/// What the filters are told of a body with this status and media type, where one acts on it.
#[inline(always)]
pub(crate) fn facts_if(site: &Site, phases: &Phases, status: u16, kind: &[u8]) -> Option<Facts>
    ensures { let facts = facts_of (standing_seen site.now phases.now.at) status kind.now in
        result ≡ (if acts_on facts then Some facts else None) }
{
    let level = site.level(phases.at.level);
    if !names_filters(level) {
        return None;
    }
    let facts = told(site, level, phases, status, kind);
    if acts(&facts) {
        return Some(facts);
    }
    None
}
