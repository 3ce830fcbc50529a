// The variables that the race check names.
ghost use Rattle.std.specs.Prelude.{◌≡◌, ◌++◌, [], map, flat_map, codes, slice_index_or, if◌then◌else◌, OnOk};
ghost use Rattle.report_text.specs.Lines.{ended};
ghost use Rattle.report_text.specs.Report.{spaced};
ghost use Rattle.report_text.specs.Races.{place_of, places_text, race_of, race_line};

use crate::escapes::put_escaped;
use crate::faults::put_place;
use crate::words::{put_number, put_word};
use byte_text::{ByteText, OutOfMemory};
use source_lines::Line;

/// What is told of a variable that can show in which order subrequests ran.
#[derive(Clone, Copy)]
pub struct RaceReport<'a> {
    /// The place of its server among the site's, from 1 on.
    pub server: u64,
    /// Its name without the `$`.
    pub name: &'a [u8],
    /// Where it is set, in the order of the text.
    pub sets: &'a [Line],
    /// Where it is read, in the order of the text.
    pub reads: &'a [Line],
    /// Whether documents read it.
    pub documents: bool,
}

/// The file of a run.
fn file_of(files: &[u32], run: u32) -> u32
    ensures { result ≡ slice_index_or files.now run 0 }
{
    match files.get(run as usize) {
        Some(file) => *file,
        None => 0,
    }
}

/// The path of a file; no bytes where there is none.
fn path_of(paths: &[ByteText], file: u32) -> &[u8]
    ensures { result.now ≡ slice_index_or paths.now file [] }
{
    match paths.get(file as usize) {
        Some(path) => path.as_slice(),
        None => b"",
    }
}

/// A space and a place, for each line.
fn put_places(
    lines: &[Line],
    files: &[u32],
    paths: &[ByteText],
    out: &mut ByteText,
) -> Result<(), OutOfMemory>
    ensures { OnOk result (out.new ≡ out.old
        ++ places_text (map (place_of files.now paths.now) lines.now)) }
{
    for line in lines {
        let path = path_of(paths, file_of(files, line.file));
        put_place(path, line.line, out)?;
    }
    Ok(())
}

fn put_documents(documents: bool, out: &mut ByteText) -> Result<(), OutOfMemory>
    ensures { OnOk result (out.new ≡ out.old
        ++ (if documents then spaced (codes "documents") else [])) }
{
    if documents {
        put_word(b"documents", out)
    } else {
        Ok(())
    }
}

/// Appends the line of a variable that the race check names: `race SERVER $NAME set PLACES read PLACES`, where a place
/// is `FILE:LINE`, and `documents` comes last where documents read it. The `file` of a line is the number of a run of
/// directives: `files` are the numbers of the runs' files, and `paths` those files' paths, whose bytes are printed as
/// those that were sent on a connection are ([`conn_text`](crate::conn_text)). After want of memory `out` holds some
/// part of the line.
#[tactic(auto, unfolding(crate::specs::Races::race_line, crate::specs::Lines::ended, crate::specs::Report::spaced))]
pub fn race_text(
    report: &RaceReport<'_>,
    files: &[u32],
    paths: &[ByteText],
    out: &mut ByteText,
) -> Result<(), OutOfMemory>
    ensures { OnOk result (out.new
        ≡ out.old ++ ended (race_line (race_of files.now paths.now report.now))) }
{
    out.extend(b"race")?;
    put_number(report.server, out)?;
    out.extend(b" $")?;
    put_escaped(report.name, out)?;
    out.extend(b" set")?;
    put_places(report.sets, files, paths, out)?;
    out.extend(b" read")?;
    put_places(report.reads, files, paths, out)?;
    put_documents(report.documents, out)?;
    out.push(b'\n')?;
    Ok(())
}
