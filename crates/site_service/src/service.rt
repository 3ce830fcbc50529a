// Serves a site over links.
ghost use Rattle.std.specs.Prelude.{◌≡◌, ◌≤◌, true, IfOk, OnOk, Ok};
ghost use Rattle.ngx_outside.specs.Causes.{Rose};
ghost use Rattle.connection_core.specs.Core.{IsRacelessSite};
ghost use Rattle.site_service.specs.Serving.{AreNew, Outside, Serving};

use crate::ends::addresses;
use byte_text::OutOfMemory;
use connection_core::served_site::ServedSite;
use connection_core::{Hub, cores_are_sound};
use ngx_outside::{Clock, Files, Links, all_is_sent_when_idle, shut_is_exact};
use ngx_pattern::PatternSet;
use ready_loop::{Ending, closed_unended_sent_all, closed_unstopped_sent_all, kept_begins, serve};
use site_model::Site;
use std::alloc::Global;

/// A site with the set of its patterns, after the race check.
#[derive(Drop)]
pub struct CheckedSite {
    pub site: Site,
    pub patterns: PatternSet,
    /// The race check names no variable of it.
    pub raceless: bool,
}

/// Serves a site over new links, on each of its addresses once, for that many turns. Where the race check names no variable of
/// it, the bytes of each connection are those of the meaning of serving.
pub fn serve_site<F: Files, L: Links, C: Clock>(
    alloc: Global,
    checked: CheckedSite,
    files: &mut F,
    links: &mut L,
    clock: &mut C,
    turns: u64,
) -> Result<Ending, OutOfMemory>
    requires links { AreNew (L.seen links.old) }
    requires quiet { checked.raceless ≡ true → IsRacelessSite checked.patterns checked.site }
    ensures serving { IfOk result (λ e.
        Serving checked.raceless checked.patterns checked.site turns e (record {
          files = F.seen files.old;
          files' = F.seen files.new;
          links = L.seen links.old;
          links' = L.seen links.new;
          clock = C.seen clock.old;
          clock' = C.seen clock.new;
        })) }
    ensures grown { OnOk result ((F.seen files.old).newest ≤ (F.seen files.new).newest) }
    ensures ended { result ≡ Ok Ending.Ended → (L.seen links.new).over ≡ true }
    ensures listen_fault { result ≡ Ok Ending.ListenFault →
        Rose (L.seen links.old).faults (L.seen links.new).faults }
    ensures next_fault { result ≡ Ok Ending.NextFault →
        Rose (L.seen links.old).faults (L.seen links.new).faults }
{
    kept_begins();
    closed_unstopped_sent_all();
    closed_unended_sent_all();
    all_is_sent_when_idle();
    shut_is_exact();
    cores_are_sound();
    let CheckedSite {
        site,
        patterns,
        raceless,
    } = checked;
    let addrs = addresses(alloc, site.servers.as_slice())?;
    let served = ServedSite::new(alloc, site, raceless)?;
    let mut hub = Hub::new(alloc, served, patterns, false);
    let ending = serve(
        alloc,
        &mut hub,
        files,
        links,
        clock,
        addrs.as_slice(),
        turns,
    )?;
    Ok(ending)
}
