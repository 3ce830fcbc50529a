// The check of a configuration.
ghost use Rattle.std.specs.Prelude.{◌≡◌, [], ◌++◌, ◌+◌, ◌-◌, ◌^◌, length, map, min, not, ◌&&◌, if◌then◌else◌, OnOk};
ghost use Rattle.conf_inherit.specs.Pools.{site_built};
ghost use Rattle.conf_inherit.specs.Values.{has_items};
ghost use Rattle.conf_races.specs.race_places.Places.{conflict_seen};
ghost use Rattle.conf_races.specs.Runs.{run_path};
ghost use Rattle.report_text.specs.Lines.{lines_text};
ghost use Rattle.ngx_cli.specs.Sites.{conflicts_of, path_in};
ghost use Rattle.ngx_cli.specs.Checks.{check_text, conflict_line, counts_of, locations_of as locations_counted};
ghost use Rattle.ngx_cli.specs.Commands.{CheckEnds, Made, PutsText};

use crate::command::{put_fault, put_text};
use crate::site::{ReadSite, SiteError, site_at};
use crate::status::Status;
use byte_text::{ByteText, OutOfMemory};
use conf_inherit::Built;
use conf_races::race_places::Conflict;
use ngx_outside::{Files, Sink};
use ngx_pattern::PatternMaker;
use report_text::{RaceReport, counts_text, race_text};
use site_model::Server;
use std::alloc::Global;

// How many locations a server has, as far as 64 bits count them.
fn locations_of(server: &Server) -> u64
    ensures { result ≡ min (length server.now.locations.items + length server.now.named.items)
        (2 ^ 64 - 1) }
{
    (server.locations.len() as u64).saturating_add(server.named.len() as u64)
}

// How many locations the servers of a site have, as far as 64 bits count them.
fn locations_in(site: &Built) -> u64
    ensures { result ≡ min (locations_counted (site_built site.now).servers) (2 ^ 64 - 1) }
{
    let mut count: u64 = 0;
    for server in site.site.servers.as_slice() {
        count = count.saturating_add(locations_of(server));
    }
    count
}

// The line of a site's counts.
fn counts_line(site: &Built, out: &mut ByteText) -> Result<(), OutOfMemory>
    ensures { OnOk result (out.new ≡ out.old ++ counts_of (site_built site.now)) }
{
    let servers = site.site.servers.as_slice();
    counts_text(servers.len() as u64, locations_in(site), out)?;
    Ok(())
}

// The lines of variables that are named, by the files of the runs of directives in which their places are.
fn races_text(
    races: &[Conflict],
    files: &[u32],
    paths: &[ByteText],
    out: &mut ByteText,
) -> Result<(), OutOfMemory>
    ensures { OnOk result (out.new ≡ out.old ++ lines_text (map conflict_line
        (map (conflict_seen (run_path (path_in paths.now) files.now)) races.now))) }
{
    for race in races {
        let report = RaceReport {
            server: race.server as u64,
            name: race.name.as_slice(),
            sets: race.sets.as_slice(),
            reads: race.reads.as_slice(),
            documents: race.documents,
        };
        race_text(&report, files, paths, out)?;
    }
    Ok(())
}

/// Appends what is printed of a configuration: its counts, and its variables that are named.
pub(crate) fn found_text(found: &ReadSite, out: &mut ByteText) -> Result<(), OutOfMemory>
    ensures { OnOk result (out.new ≡ out.old ++ check_text found.now) }
{
    counts_line(&found.built, out)?;
    let races = &found.races;
    races_text(
        races.conflicts.as_slice(),
        races.files.as_slice(),
        found.paths.as_slice(),
        out,
    )?;
    Ok(())
}

/// Prints the counts of a configuration, and its variables that are named.
pub(crate) fn put_found<O: Sink>(alloc: Global, found: &ReadSite, out: &mut O) -> Result<(), Status>
    ensures { PutsText (record { before = O.seen out.old; after = O.seen out.new })
        (check_text found.now) result }
{
    let mut text = ByteText::new(alloc);
    match found_text(found, &mut text) {
        Ok(()) => put_text(text.as_slice(), out),
        Err(OutOfMemory) => Err(Status::OutOfMemory),
    }
}

/// Whether variables are named.
pub(crate) fn is_racy(found: &ReadSite) -> bool
    ensures { result ≡ has_items (conflicts_of found.now) }
{
    !found.races.conflicts.is_empty()
}

/// Whether a site isn't to be run: variables are named, and it wasn't asked for all the same.
pub(crate) fn is_refused(racy: bool, found: &ReadSite) -> bool
    ensures { result ≡ (not racy && has_items (conflicts_of found.now)) }
{
    !racy && is_racy(found)
}

/// What a check ends with.
fn status_by(racy: bool) -> Status
    ensures { result ≡ (if racy then Status.Racy else Status.Done) }
{
    if racy { Status::Racy } else { Status::Done }
}

/// Reads a configuration, and prints what it comes to: its counts and the variables that are named, or its first fault.
pub(crate) fn run_check<F: Files, O: Sink, M: PatternMaker>(
    alloc: Global,
    path: &[u8],
    files: &mut F,
    maker: &mut M,
    out: &mut O,
) -> Status
    ensures { CheckEnds (F.seen files.old) (F.seen files.new)
        (record { before = M.refusals maker.old; after = M.refusals maker.new })
        (record { before = O.seen out.old; after = O.seen out.new }) path.now result }
{
    match site_at(alloc, files, maker, path) {
        Ok(found) => match put_found(alloc, &found, out) {
            Ok(()) => status_by(is_racy(&found)),
            Err(status) => status,
        },
        Err(SiteError::Fault(placed)) => match put_fault(alloc, &placed, out) {
            Ok(()) => Status::ConfFault,
            Err(status) => status,
        },
        Err(SiteError::Failed(placed)) => match put_fault(alloc, &placed, out) {
            Ok(()) => Status::FilesFault,
            Err(status) => status,
        },
        Err(SiteError::TooBig(placed)) => match put_fault(alloc, &placed, out) {
            Ok(()) => Status::PatternFault,
            Err(status) => status,
        },
        Err(SiteError::OutOfMemory) => Status::OutOfMemory,
    }
}
