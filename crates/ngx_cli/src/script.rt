// Runs a script.
ghost use Rattle.std.specs.Prelude.{◌≡◌, true, [], ◌++◌, ℕ, List, Ok, Err, IfOk, IfErr, OnOk, map, is_some, if◌then◌else◌};
ghost use Rattle.report_text.specs.declared.report.ConnState.TheVariants.{Stopped, Idle, Busy};
ghost use Rattle.replay_run.specs.Scene.{stage, AreHeld};
ghost use Rattle.site_service.specs.connection_core.Core.{view_at, now_at, journal_at, conns_held, terms_at};
ghost use Rattle.report_text.specs.Report.{run_text, report_of};
ghost use Rattle.report_text.specs.Lines.{ended};
ghost use Rattle.report_text.specs.Faults.{conf_fault_line};
ghost use Rattle.ngx_outside.specs.Causes.{Rose};
ghost use Rattle.ngx_cli.specs.Sites.{AreRaceless, OnFault, OnRefused};
ghost use Rattle.ngx_cli.specs.Running.{main_path as path_of_main, AreFound, Describe, report_in, Ran, RunsOn, Replays};

use crate::check::{found_text, is_racy, is_refused};
use crate::site::{ReadSite, SiteError, site_at};
use byte_text::{ByteText, OutOfMemory};
use conf_include::PlacedFault;
use conf_inherit::Built;
use ngx_outside::{
    Entry, StopCause, all_is_logged_when_idle, all_is_sent_when_idle, all_is_sent_when_shut,
    shut_is_exact, tracks_begin,
};
use ngx_pattern::PatternMaker;
use replay_confs::ConfFiles;
use replay_run::{Counts, Player, files_of, run_lines};
use replay_text::{Conf, Confs, EventLine, Script, ScriptError, ScriptFault, TreeLine, read};
use report_text::{ConnReport, ConnState, conf_fault_text, conn_text, end_text, script_fault_text};
use site_service::connection_core::{Hub, cores_are_sound};
use site_service::served_site::ServedSite;
use std::alloc::Global;

/// What a script came to.
#[derive(Clone, Copy, Debug, PartialEq, Eq)]
pub enum ScriptOutcome {
    /// It was run.
    Done,
    /// Its bytes are outside its grammar.
    ScriptFault(ScriptFault),
    /// Its configurations have a fault.
    ConfFault,
    /// The maker refused a pattern of its configurations.
    PatternFault,
    /// Variables of its configurations show in which order subrequests run.
    Racy,
}

// The path of the main configuration.
fn main_path(confs: &[Conf]) -> &[u8]
    ensures { result.now ≡ path_of_main confs.now }
{
    match confs {
        [] => b"",
        [main, ..] => main.path.as_slice(),
    }
}

// The site that a script's configurations describe.
fn site_of<M: PatternMaker>(
    alloc: Global,
    confs: &Confs,
    maker: &mut M,
) -> Result<ReadSite, SiteError>
    ensures ok { IfOk result (λ found. AreFound confs.now found) }
    ensures fault { IfErr result (λ e. OnFault e
        (λ fault at. Describe confs.now (Err (fault, at)))) }
    ensures refused { IfErr result (λ e. OnRefused e (M.refusals maker.old)
        (M.refusals maker.new)) }
{
    let mut files = ConfFiles::new(alloc, confs.as_slice());
    match site_at(alloc, &mut files, maker, main_path(confs.as_slice())) {
        Ok(found) => Ok(found),
        Err(error) => Err(error),
    }
}

fn state_of(cause: Option<StopCause>, idle: bool) -> ConnState
    ensures { result ≡ (if is_some cause then Stopped else (if idle then Idle else Busy)) }
{
    if cause.is_some() {
        ConnState::Stopped
    } else if idle {
        ConnState::Idle
    } else {
        ConnState::Busy
    }
}

// The journal of a connection, where the core keeps it.
fn journal_of(hub: &Hub, conn: u32) -> &[Entry]
    requires { (terms_at hub.now).keeps ≡ true }
    ensures { result.now ≡ journal_at hub.now conn }
{
    match hub.journal(conn) {
        Some(entries) => entries,
        None => unreachable!(),
    }
}

// What is reported of a connection.
fn report<'a>(hub: &'a Hub, player: &'a Player, conn: u32) -> ConnReport<'a>
    requires { (terms_at hub.now).keeps ≡ true }
    ensures { report_of result ≡ report_in
        (stage (view_at hub.now) (now_at hub.now) player.now.lanes.items)
        (journal_at hub.now) conn }
{
    let cause = hub.cause(conn);
    ConnReport {
        conn,
        state: state_of(cause, hub.is_idle(conn)),
        closes: hub.is_shut(conn),
        cause,
        journal: journal_of(hub, conn),
        sent: player.emitted(conn),
    }
}

// Prints the run.
#[tactic(auto, unfolding(report_text::specs::Report::run_text))]
fn put_run(
    hub: &Hub,
    player: &Player,
    counts: Counts,
    out: &mut ByteText,
) -> Result<(), OutOfMemory>
    requires { (terms_at hub.now).keeps ≡ true }
    ensures held { AreHeld (conns_held hub.now) (view_at hub.now) }
    ensures text { OnOk result (out.new ≡ out.old ++ run_text
        (map (report_in (stage (view_at hub.now) (now_at hub.now) player.now.lanes.items)
        (journal_at hub.now)) (conns_held hub.now)) counts.skipped counts.refused) }
{
    for conn in hub.ids() {
        conn_text(&report(hub, player, *conn), out)?;
    }
    end_text(counts.skipped, counts.refused, out)?;
    Ok(())
}

// Runs a script's lines, over its tree, on a new core of a site, of which the race check names no variable, or some, and prints
// the run.
fn run(
    alloc: Global,
    built: Built,
    raceless: bool,
    tree: &[TreeLine],
    events: &[EventLine],
    out: &mut ByteText,
) -> Result<(), OutOfMemory>
    requires quiet { raceless ≡ true → AreRaceless built }
    ensures { OnOk result ((text : List ℕ) × (out.new ≡ out.old ++ text) ×
        Ran raceless built tree.now events.now text) }
{
    tracks_begin();
    all_is_sent_when_idle();
    all_is_sent_when_shut();
    shut_is_exact();
    all_is_logged_when_idle();
    cores_are_sound();
    let Built { site, patterns } = built;
    let served = ServedSite::new(alloc, site, raceless)?;
    let mut hub = Hub::new(alloc, served, patterns, true);
    let mut player = Player::new(alloc);
    let mut files = files_of(alloc, tree)?;
    let counts = run_lines(&mut player, &mut hub, &mut files, events)?;
    put_run(&hub, &player, counts, out)?;
    Ok(())
}

/// Appends the line of a fault with the path of its file.
pub(crate) fn placed_fault_text(placed: &PlacedFault, out: &mut ByteText) -> Result<(), OutOfMemory>
    ensures { OnOk result (out.new ≡ out.old ++ ended
        (conf_fault_line placed.now.path placed.now.fault)) }
{
    conf_fault_text(&placed.fault, placed.path.as_slice(), out)?;
    Ok(())
}

// Runs a script on a site, if no variable of it is named, or all the same.
fn run_found(
    alloc: Global,
    racy: bool,
    found: ReadSite,
    script: &Script,
    out: &mut ByteText,
) -> Result<ScriptOutcome, OutOfMemory>
    requires { AreFound script.now.confs found }
    ensures { IfOk result (λ o. (text : List ℕ) × (out.new ≡ out.old ++ text)
        × RunsOn racy script.now o text) }
{
    if is_refused(racy, &found) {
        found_text(&found, out)?;
        return Ok(ScriptOutcome::Racy);
    }
    let raceless = !is_racy(&found);
    run(
        alloc,
        found.built,
        raceless,
        script.tree.as_slice(),
        script.events.as_slice(),
        out,
    )?;
    Ok(ScriptOutcome::Done)
}

/// Runs a script, and appends what is printed of it: what each connection came to, or the first fault of the script or of its
/// configurations, or a pattern of these that the maker refused, or, unless it is to run all the same, the variables of these
/// that show in which order subrequests run. After want of memory `out` holds some part of the text.
pub fn replay<M: PatternMaker>(
    alloc: Global,
    bytes: &[u8],
    racy: bool,
    maker: &mut M,
    out: &mut ByteText,
) -> Result<ScriptOutcome, OutOfMemory>
    ensures text { IfOk result (λ o. (text : List ℕ) × (out.new ≡ out.old ++ text) ×
        Replays racy bytes.now o text) }
    ensures refused { result ≡ Ok ScriptOutcome.PatternFault →
        Rose (M.refusals maker.old) (M.refusals maker.new) }
{
    let script = match read(alloc, bytes) {
        Ok(script) => script,
        Err(ScriptError::Fault(fault)) => {
            script_fault_text(fault, out)?;
            return Ok(ScriptOutcome::ScriptFault(fault));
        }
        Err(ScriptError::OutOfMemory) => return Err(OutOfMemory),
    };
    match site_of(alloc, &script.confs, maker) {
        Ok(found) => run_found(alloc, racy, found, &script, out),
        Err(SiteError::Fault(placed)) => {
            placed_fault_text(&placed, out)?;
            Ok(ScriptOutcome::ConfFault)
        }
        Err(SiteError::TooBig(placed)) => {
            placed_fault_text(&placed, out)?;
            Ok(ScriptOutcome::PatternFault)
        }
        // A script's configurations are in memory: only a read of what they don't hold fails, and what is there is asked
        // before.
        Err(SiteError::Failed(_)) => Err(OutOfMemory),
        Err(SiteError::OutOfMemory) => Err(OutOfMemory),
    }
}
