// How long a connection waits for its peer.
ghost use Rattle.std.specs.Prelude.{◌≡◌, List, true};
ghost use Rattle.ngx_pattern.specs.Pattern.{Pattern as SetPattern};
ghost use Rattle.pattern_search.specs.Found.{patterns_seen};
ghost use Rattle.site_model.specs.declared.site.Site.{Site as SiteRow};
ghost use Rattle.site_views.specs.Choice.{default_server};
ghost use Rattle.site_whole.specs.Whole.{values_seen, whole};
ghost use Rattle.http_connection.specs.Rests.{values_at};
ghost use Rattle.http_connection.specs.Times.{seconds_in, after, due_of, soonest, mark_by, awaited_by, pace_seen, paced, own_values, head_wait_in, NoneShorter};

use http_types::Addr;
use served_site::ServedSite;
use site_model::Level;

/// How long a response may wait to be read, and how long a connection is kept open after it, in
/// milliseconds (`send_timeout`, of which 0 is no limit, and `keepalive_timeout`).
#[derive(Clone, Copy, Debug, PartialEq, Eq)]
pub struct Pace {
    pub send: u64,
    pub idle: u64,
}

/// What a connection waits by, in seconds: the moment at which bytes came to be pending or a request came to its end, and before
/// the first request that of its opening; the moments of its last write, and of the arrival since which bytes are buffered; how
/// long it waits for a head (`client_header_timeout`, of which 0 is no limit); and the pace of its last response.
#[derive(Clone, Copy, Debug, PartialEq, Eq)]
pub struct Times {
    pub mark: u64,
    pub wrote: u64,
    pub filled: u64,
    pub head: u64,
    pub pace: Pace,
}

/// What is awaited of a peer: nothing, that it takes bytes, its first head, the rest of a head, or a further request.
#[derive(Clone, Copy, Debug, PartialEq, Eq)]
pub enum Awaited {
    Nothing,
    Room,
    First,
    Head,
    Further,
}

/// Whether bytes are pending, and whether a request is in flight: it isn't over, or some of its response is unsent.
#[derive(Clone, Copy)]
pub(crate) struct Sending {
    pub(crate) pending: bool,
    pub(crate) in_flight: bool,
}

/// No bytes are pending, and no request is in flight.
pub(crate) const AT_REST: Sending = Sending {
    pending: false,
    in_flight: false,
};

// Milliseconds as whole seconds, of which a part counts as one.
#[tactic(auto, unfolding(crate::specs::Times::seconds_in))]
fn seconds(milliseconds: u64) -> u64
    ensures { result ≡ seconds_in milliseconds }
{
    let whole = milliseconds / 1000;
    if milliseconds % 1000 == 0 {
        whole
    } else {
        whole + 1
    }
}

/// The pace of a response where no server answers.
pub(crate) const NO_PACE: Pace = Pace { send: 0, idle: 0 };

/// The pace of a level.
#[tactic(auto, unfolding(site_whole::specs::Whole::values_seen))]
fn pace_of(level: &Level) -> Pace
    ensures { (site : SiteRow) → result ≡ pace_seen (values_seen site level.now) }
{
    Pace {
        send: level.send_wait,
        idle: level.idle,
    }
}

// Whether a pace is that of a level.
#[tactic(auto, unfolding(site_whole::specs::Whole::values_seen))]
fn is_pace_of(level: &Level, pace: Pace) -> bool
    ensures { (site : SiteRow) → result ≡ true → pace ≡ pace_seen (values_seen site level.now) }
{
    pace.send == level.send_wait && pace.idle == level.idle
}

/// The number of the own level of the server at a local end.
#[tactic(auto, unfolding(site_whole::specs::Whole::server_whole, site_whole::specs::Whole::level_whole))]
pub(crate) fn own_level(served: &ServedSite, local: Addr) -> Option<u32>
    ensures { (patterns : List SetPattern) → values_at served.now result
        ≡ own_values (default_server (whole
        (patterns_seen patterns) served.now.site).servers local) }
{
    match served.default_at(local) {
        Some(number) => Some(served.server(number).level),
        None => None,
    }
}

/// How long a head is awaited by a level, in seconds.
#[tactic(auto, unfolding(site_whole::specs::Whole::values_seen))]
fn head_wait_of(level: &Level) -> u64
    ensures { (site : SiteRow) → result ≡ seconds_in (values_seen site level.now).head_wait }
{
    seconds(level.head_wait)
}

/// How long a head is awaited at a local end, in seconds.
pub(crate) fn head_wait_at(served: &ServedSite, local: Addr) -> u64
    ensures { (patterns : List SetPattern) → result
        ≡ head_wait_in (own_values (default_server
        (whole (patterns_seen patterns) served.now.site).servers local)) }
{
    match own_level(served, local) {
        Some(number) => head_wait_of(served.site().level(number)),
        None => 0,
    }
}

/// What is awaited, by whether the link is to be closed, bytes are pending, a request is in flight or may start, none was
/// started yet, and bytes are buffered.
pub(crate) fn awaited_of(
    is_shut: bool,
    is_pending: bool,
    is_busy: bool,
    is_first: bool,
    is_buffered: bool,
) -> Awaited
    ensures { result ≡ awaited_by is_shut is_pending is_busy is_first is_buffered }
{
    if is_shut {
        Awaited::Nothing
    } else if is_pending {
        Awaited::Room
    } else if is_busy {
        Awaited::Nothing
    } else if is_first {
        Awaited::First
    } else if is_buffered {
        Awaited::Head
    } else {
        Awaited::Further
    }
}

// So long after the mark, where a time of no seconds is no limit.
fn limit(mark: u64, wait: u64) -> u64
    ensures { result ≡ soonest (after mark wait) }
{
    if wait == 0 {
        u64::MAX
    } else {
        mark.saturating_add(wait)
    }
}

/// The moment at which a connection is given up, the type's last one where there is none.
pub(crate) fn due(awaited: Awaited, times: Times) -> u64
    ensures { result ≡ soonest (due_of awaited times) }
{
    match awaited {
        Awaited::Nothing => u64::MAX,
        Awaited::Room => limit(times.mark.max(times.wrote), seconds(times.pace.send)),
        Awaited::First => limit(times.mark, times.head),
        Awaited::Head => limit(times.mark.max(times.filled), times.head),
        Awaited::Further => times.mark.saturating_add(seconds(times.pace.idle)),
    }
}

// The shortest wait, in seconds: whatever is awaited, it is awaited no shorter.
fn shortest(head: u64, pace: Pace) -> u64
    ensures { NoneShorter head pace result }
{
    limit(0, seconds(pace.send))
        .min(limit(0, head))
        .min(seconds(pace.idle))
}

// The pace of a level, which mostly is the one before, and the shortest wait by it.
fn pace_by(pace: &mut Pace, least: &mut u64, head: u64, level: &Level)
    requires { NoneShorter head pace.old least.old }
    ensures pace { (site : SiteRow) → pace.new ≡ pace_seen (values_seen site level.now) }
    ensures least { NoneShorter head pace.new least.new }
{
    if is_pace_of(level, *pace) {
        return;
    }
    *pace = pace_of(level);
    *least = shortest(head, *pace);
}

/// The pace after a step that put the head of a response by the level with this number, if it put one, and the shortest wait
/// by it.
pub(crate) fn paced_on(
    pace: &mut Pace,
    least: &mut u64,
    head: u64,
    served: &ServedSite,
    level: Option<u32>,
)
    requires { NoneShorter head pace.old least.old }
    ensures pace { pace.new ≡ paced (values_at served.now level) pace.old }
    ensures least { NoneShorter head pace.new least.new }
{
    match level {
        Some(number) => pace_by(pace, least, head, served.site().level(number)),
        None => {}
    }
}

/// The mark after a step: this moment where bytes came to be pending or a request came to its end.
pub(crate) fn marked(mark: u64, moment: u64, before: Sending, after: Sending) -> u64
    ensures { result ≡ mark_by mark moment before.pending before.in_flight after.pending
        after.in_flight }
{
    if !before.pending && after.pending {
        moment
    } else if before.in_flight && !after.in_flight {
        moment
    } else {
        mark
    }
}
