// The program.
ghost use Rattle.std.specs.Prelude.{◌≡◌, [], map, string_bytes};
ghost use Rattle.report_text.specs.Lines.{ended};
ghost use Rattle.report_text.specs.Faults.{conf_fault_line};
ghost use Rattle.site_service.specs.Serving.{AreNew, Outside};
ghost use Rattle.command_line.specs.Words.{request_in};
ghost use Rattle.ngx_cli.specs.Sites.{AreRaceless, conflicts_of};
ghost use Rattle.ngx_cli.specs.Commands.{Ends, EndsWith, FoundEnds, Made, Output, ReplayEnds, ServeEnds, PutsText};

use crate::check::{is_racy, is_refused, put_found, run_check};
use crate::help::{put_help, put_version};
use crate::script::{placed_fault_text, replay};
use crate::site::{ReadSite, SiteError, site_at};
use crate::status::{Status, served_status, status_of};
use crate::text::read_text;
use byte_text::{ByteText, OutOfMemory};
use command_line::{Command, command_of};
use conf_include::PlacedFault;
use conf_inherit::Built;
use ngx_outside::{Clock, Failed, FileFault, Files, Links, Sink};
use ngx_pattern::PatternMaker;
use site_service::{CheckedSite, serve_site};
use std::alloc::Global;

/// Prints a text; where that fails, what the program ends with.
pub(crate) fn put_text<O: Sink>(text: &[u8], out: &mut O) -> Result<(), Status>
    ensures { PutsText (record { before = O.seen out.old; after = O.seen out.new }) text.now
        result }
{
    match out.put(text) {
        Ok(()) => Ok(()),
        Err(Failed) => Err(Status::SinkFault),
    }
}

// Runs a script and prints what it came to.
fn run_script<F: Files, O: Sink, M: PatternMaker>(
    alloc: Global,
    path: &[u8],
    racy: bool,
    files: &mut F,
    maker: &mut M,
    out: &mut O,
) -> Status
    ensures { ReplayEnds (F.seen files.old) (F.seen files.new)
        (record { before = M.refusals maker.old; after = M.refusals maker.new })
        (record { before = O.seen out.old; after = O.seen out.new }) path.now racy result }
{
    let script = match read_text(alloc, files, path) {
        Ok(script) => script,
        Err(FileFault::Failed) => return Status::FilesFault,
        Err(FileFault::OutOfMemory) => return Status::OutOfMemory,
    };
    let mut text = ByteText::new(alloc);
    match replay(alloc, script.as_slice(), racy, maker, &mut text) {
        Ok(outcome) => match put_text(text.as_slice(), out) {
            Ok(()) => status_of(outcome),
            Err(status) => status,
        },
        Err(OutOfMemory) => Status::OutOfMemory,
    }
}

/// Prints a fault of a configuration; where that fails, what the program ends with.
pub(crate) fn put_fault<O: Sink>(
    alloc: Global,
    placed: &PlacedFault,
    out: &mut O,
) -> Result<(), Status>
    ensures { PutsText (record { before = O.seen out.old; after = O.seen out.new })
        (ended (conf_fault_line placed.now.path placed.now.fault)) result }
{
    let mut text = ByteText::new(alloc);
    match placed_fault_text(placed, &mut text) {
        Ok(()) => put_text(text.as_slice(), out),
        Err(OutOfMemory) => Err(Status::OutOfMemory),
    }
}

/// What is asked of serving: the path of the configuration, for how many turns its site is served, and whether all the same
/// where variables can show in which order subrequests run.
#[derive(Clone, Copy)]
struct Asked<'a> {
    conf: &'a [u8],
    turns: u64,
    racy: bool,
}

// Serves the site of a configuration, if no variable of it is named, or all the same.
fn serve_found<F: Files, L: Links, C: Clock, O: Sink>(
    alloc: Global,
    found: ReadSite,
    asked: Asked<'_>,
    files: &mut F,
    links: &mut L,
    clock: &mut C,
    out: &mut O,
) -> Status
    requires links { AreNew (L.seen links.old) }
    requires quiet { conflicts_of found ≡ [] → AreRaceless found.built }
    ensures { FoundEnds found asked.entry.racy (record {
      files = F.seen files.old;
      files' = F.seen files.new;
      links = L.seen links.old;
      links' = L.seen links.new;
      clock = C.seen clock.old;
      clock' = C.seen clock.new;
    }) (record { before = O.seen out.old; after = O.seen out.new }) asked.entry.turns result }
{
    if is_refused(asked.racy, &found) {
        return match put_found(alloc, &found, out) {
            Ok(()) => Status::Racy,
            Err(status) => status,
        };
    }
    let raceless = !is_racy(&found);
    let Built { site, patterns } = found.built;
    let checked = CheckedSite {
        site,
        patterns,
        raceless,
    };
    match serve_site(alloc, checked, files, links, clock, asked.turns) {
        Ok(ending) => served_status(ending),
        Err(OutOfMemory) => Status::OutOfMemory,
    }
}

// Serves the site of a configuration.
fn run_site<F: Files, L: Links, C: Clock, O: Sink, M: PatternMaker>(
    alloc: Global,
    asked: Asked<'_>,
    files: &mut F,
    links: &mut L,
    clock: &mut C,
    maker: &mut M,
    out: &mut O,
) -> Status
    requires links { AreNew (L.seen links.old) }
    ensures { ServeEnds (record {
      files = F.seen files.old;
      files' = F.seen files.new;
      links = L.seen links.old;
      links' = L.seen links.new;
      clock = C.seen clock.old;
      clock' = C.seen clock.new;
    }) (record { before = M.refusals maker.old; after = M.refusals maker.new })
        (record { before = O.seen out.old; after = O.seen out.new })
        asked.entry.conf.now asked.entry.turns asked.entry.racy result }
{
    match site_at(alloc, files, maker, asked.conf) {
        Ok(found) => serve_found(alloc, found, asked, files, links, clock, out),
        Err(SiteError::Fault(placed)) => match put_fault(alloc, &placed, out) {
            Ok(()) => Status::ConfFault,
            Err(status) => status,
        },
        Err(SiteError::Failed(placed)) => match put_fault(alloc, &placed, out) {
            Ok(()) => Status::FilesFault,
            Err(status) => status,
        },
        Err(SiteError::TooBig(placed)) => match put_fault(alloc, &placed, out) {
            Ok(()) => Status::PatternFault,
            Err(status) => status,
        },
        Err(SiteError::OutOfMemory) => Status::OutOfMemory,
    }
}

// What the words ask for is done.
fn run<F: Files, L: Links, C: Clock, O: Sink, M: PatternMaker>(
    alloc: Global,
    words: &[String],
    files: &mut F,
    links: &mut L,
    clock: &mut C,
    maker: &mut M,
    out: &mut O,
) -> Status
    requires links { AreNew (L.seen links.old) }
    ensures { Ends (request_in (map string_bytes words.now)) (record {
      files = F.seen files.old;
      files' = F.seen files.new;
      links = L.seen links.old;
      links' = L.seen links.new;
      clock = C.seen clock.old;
      clock' = C.seen clock.new;
    }) (record { before = M.refusals maker.old; after = M.refusals maker.new })
        (record { before = O.seen out.old; after = O.seen out.new }) result }
{
    match command_of(words) {
        None => Status::Usage,
        Some(Command::Help { topic }) => put_help(topic, out),
        Some(Command::Version) => put_version(out),
        Some(Command::Check { conf }) => run_check(alloc, conf.as_bytes(), files, maker, out),
        Some(Command::Replay { script, racy }) => {
            run_script(alloc, script.as_bytes(), racy, files, maker, out)
        }
        Some(Command::Serve { conf, turns, racy }) => {
            let asked = Asked {
                conf: conf.as_bytes(),
                turns,
                racy,
            };
            run_site(alloc, asked, files, links, clock, maker, out)
        }
    }
}

/// The program: does what its words ask for, with these files, links, clock, maker of patterns and output, and answers the
/// exit status of the process. No link was reported yet.
///
/// The words are the program's name and one of these.
///
/// - `--help` or `-h`: what the program does, with its commands, is printed; after a command, or after its path: what the
///   command does, with what it takes.
/// - `--version` or `-V`: the program's name and version are printed.
/// - `check CONF`: the configuration is read with what it includes, and `servers N locations M` is printed, M being the
///   locations of all its servers, in each other or of a name too; then a line for each variable that can show in which order
///   subrequests run, `race SERVER $NAME set PLACES read PLACES`.
/// - `replay SCRIPT`: the script is run on a new core of the site that its configuration describes, and what each connection
///   came to is printed.
/// - `serve CONF`, or `serve CONF --turns N`: the site that the configuration describes is served on its addresses, until no
///   notice comes any more, or for N turns, from 1 to 1000000000. Serving prints nothing but faults.
/// - `--racy` after `replay SCRIPT` or `serve CONF`: all the same where variables can show in which order subrequests run.
///   Without it, what `check` prints is printed then, and nothing is run or served.
///
/// 0: done; of serving, no notice will come any more. 1: the configuration has a fault, which is printed. 2: the words are no
/// command. 3: variables can show in which order subrequests run, which are printed. 4: the files failed; where a
/// configuration was read, that is printed. 5: the output failed. 6: listening or the call for the next notice failed. 7:
/// memory ran out. 8: the script is outside its grammar, and its first fault is printed. 9: all turns were used. 10: the
/// maker refused a pattern of the configuration, which is printed.
///
/// Where variables can't show in which order subrequests run, and so always without `--racy`: on each connection of a run, and on
/// each link that is served, the bytes emitted are a prefix of the concatenated
/// responses that the meaning of serving gives the requests in the bytes that arrived on it, at its two ends. They are all of
/// them where it is idle; of a link, unless a cause stopped it, once it is closed, and at the end of serving, unless it takes
/// no more. A link is closed without such a cause only where its input ended, or where nothing that could still arrive would
/// have been answered.
pub fn ngx<F: Files, L: Links, C: Clock, O: Sink, M: PatternMaker>(
    alloc: Global,
    words: &[String],
    files: &mut F,
    links: &mut L,
    clock: &mut C,
    maker: &mut M,
    out: &mut O,
) -> u8
    requires links { AreNew (L.seen links.old) }
    ensures { EndsWith (request_in (map string_bytes words.now)) (record {
      files = F.seen files.old;
      files' = F.seen files.new;
      links = L.seen links.old;
      links' = L.seen links.new;
      clock = C.seen clock.old;
      clock' = C.seen clock.new;
    }) (record { before = M.refusals maker.old; after = M.refusals maker.new })
        (record { before = O.seen out.old; after = O.seen out.new }) result }
{
    run(alloc, words, files, links, clock, maker, out).code()
}
