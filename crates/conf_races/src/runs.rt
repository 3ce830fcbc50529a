// Runs of directives of one file.
ghost use Rattle.std.specs.Prelude.{◌≡◌, ◌==◌, ◌++◌, ◌∷◌, [], suc, if◌then◌else◌, IfOk, OnOk};
ghost use Rattle.conf_races.specs.Runs.{in_runs, run_files};

use byte_text::OutOfMemory;
use conf_text::Directive;
use std::alloc::Global;

/// The run of a directive of this file after one of the last run, which is of the last file; where that is another file, the
/// next run begins, and its file is added.
fn run_of(files: &mut Vec<u32>, run: u32, last: u32, file: u32) -> Result<u32, OutOfMemory>
    ensures run { IfOk result (λ r. r ≡ (if file == last then run else suc run)) }
    ensures files { OnOk result (files.new.items ≡ files.old.items
        ++ (if file == last then [] else file ∷ [])) }
{
    if file == last {
        return Ok(run);
    }
    files.push(file)?;
    match run.checked_add(1) {
        Some(next) => Ok(next),
        None => Err(OutOfMemory),
    }
}

/// Puts the number of its run in place of each directive's file: a run is of directives of one file, one after another in
/// the text. The files of the runs.
pub fn number_runs(alloc: Global, directives: &mut Vec<Directive>) -> Result<Vec<u32>, OutOfMemory>
    ensures files { IfOk result (λ files. files.items ≡ run_files directives.old.items) }
    ensures runs { OnOk result (directives.new.items ≡ in_runs directives.old.items) }
{
    let mut files = Vec::new(alloc);
    files.push(0)?;
    let mut run: u32 = 0;
    let mut last: u32 = 0;
    for at in 0..directives.len() {
        let file = directives[at].file;
        run = run_of(&mut files, run, last, file)?;
        last = file;
        directives[at].file = run;
    }
    Ok(files)
}
