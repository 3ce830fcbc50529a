// A configuration from its main file.
ghost use Rattle.std.specs.Prelude.{◌≡◌, ◌≤◌, ◌+◌, ◌∷◌, ℕ, List, [], true, slice_index_or};
ghost use Rattle.ngx_outside.specs.Outside.{Grow};
ghost use Rattle.ngx_outside.specs.Records.{Adds};
ghost use Rattle.conf_include.specs.declared.main_file.ExpandError.TheVariants.{OutOfMemory as NoMemory};
ghost use Rattle.conf_include.specs.Listings.{Names, IsNaming};
ghost use Rattle.conf_include.specs.Expansion.{put_main, expansion};
ghost use Rattle.conf_include.specs.Asked.{IsAskedAt};
ghost use Rattle.conf_include.specs.Told.{Later};
ghost use Rattle.conf_include.specs.Steps.{IsCaused, Puts, FailsWhere, Expands, FailsIf};

use crate::include::{Reading, Setting, directives_in};
use crate::open::text_of;
use crate::stop::{Spot, Stop};
use byte_text::{ByteText, ByteTexts, OutOfMemory};
use conf_text::{ConfFault, Directives};
use ngx_outside::Files;
use std::alloc::Global;

/// How many includes may enclose each other.
const MOST_DEEP: u32 = 8;

/// A configuration's directives, with each include replaced by its files, and the paths of the files by their numbers. The
/// depth of a directive counts the blocks around its file's include too.
#[derive(Debug, Drop)]
pub struct Expanded {
    pub directives: Directives,
    pub paths: ByteTexts,
}

/// A fault, and the path of the file whose number it has.
#[derive(Debug, Drop)]
pub struct PlacedFault {
    pub fault: ConfFault,
    pub path: ByteText,
}

/// Why a configuration was not read.
#[derive(Debug, Drop)]
pub enum ExpandError {
    /// A fault of the configuration.
    Fault(PlacedFault),
    /// The files failed, and their count of faults rose. The fault is of the kind `ReadFault`.
    Failed(PlacedFault),
    OutOfMemory,
}

impl From<OutOfMemory> for ExpandError {
    ghost from_gives = { λ _ e. e ≡ NoMemory };

    fn from(_: OutOfMemory) -> Self {
        ExpandError::OutOfMemory
    }
}

/// Reads the main file, whose number is 0, and what it includes.
fn read_main<F: Files>(
    setting: &Setting<'_>,
    files: &mut F,
    reading: &mut Reading,
) -> Result<(), Stop>
    requires known { setting.now.tree ≤ (F.seen files.old).newest }
    requires paths { reading.old.paths ≡ setting.now.main.now ∷ [] }
    requires size { reading.old.size ≡ 0 }
    requires lines { reading.old.lines ≡ [] }
    ensures later { Later (F.seen files.old) (F.seen files.new) }
    ensures cause { IsCaused result (F.seen files.old).faults (F.seen files.new).faults }
    ensures exact { Puts (λ tree names. put_main tree names setting.now.main.now) setting.now.tree
        (F.seen files.new) 0 reading.old reading.new result }
    ensures place { FailsWhere setting.now.tree setting.now.main.now
        (F.seen files.new) reading.new result }
{
    let at = Spot { file: 0, line: 1 };
    let text = text_of(
        setting.alloc,
        files,
        setting.tree,
        at,
        setting.main,
        reading.size,
    )?;
    reading.size = text.len() as u64;
    let lines = directives_in(setting.alloc, 0, text.as_slice())?;
    reading.put_lines(setting, files, MOST_DEEP, 0, lines)?;
    Ok(())
}

/// The path of a number; no bytes where there is none.
fn path_at(alloc: Global, paths: ByteTexts, number: u32) -> ByteText
    ensures { result ≡ slice_index_or paths number [] }
{
    let mut paths = paths.into_vec();
    let at = number as usize;
    if at < paths.len() {
        paths.swap_remove(at)
    } else {
        ByteText::new(alloc)
    }
}

/// Reads a configuration from its main file: its directives, with each `include` replaced by the directives of the files
/// that it names, as nginx does (nginx's documentation, "Core functionality", `include`). The path of an include starts at
/// the folder of the main file, unless it begins with a slash; `*` and `?` in its last component make it a mask, which
/// names files in byte order and may name none.
///
/// Includes enclose each other at most 8 deep; a configuration has at most 256 files, the main one and each included one
/// as often as it is read, and 1048576 bytes of text in all.
///
/// # Errors
///
/// `Fault` for the first fault, in the order of reading: a file is read whole before its includes are. A fault of a
/// file that an include names is at the include, and one of the main file at its own line 1; its word is the file's
/// path. `Failed` only where the files failed in this call: it is at the include that names what they were asked for,
/// or at the main file's own line 1, and its word is the path that they were asked for, or the include's mask.
/// `OutOfMemory`.
///
/// The number of the newest tree is asked for once, first.
pub fn expand<F: Files>(alloc: Global, files: &mut F, path: &[u8]) -> Result<Expanded, ExpandError>
    ensures exact { (F.seen files.old).tells ≡ true
        → (F.seen files.new).newest ≡ (F.seen files.old).newest → (names : Names)
        → IsNaming ((F.seen files.old).trees (F.seen files.old).newest) names
        → Expands (IsAskedAt ((F.seen files.old).trees (F.seen files.old).newest) names path.now)
        result (expansion ((F.seen files.old).trees (F.seen files.old).newest) names path.now) }
    ensures cause { FailsIf result (F.seen files.old).faults (F.seen files.new).faults }
    ensures tells { (F.seen files.new).tells ≡ (F.seen files.old).tells }
    ensures versions { Adds (F.seen files.old).newest (F.seen files.old).versions
        (F.seen files.new).versions }
    ensures grow { Grow (F.seen files.old).newest (F.seen files.new).newest
        (F.seen files.old).trees (F.seen files.new).trees }
    ensures later { (F.seen files.old).faults ≤ (F.seen files.new).faults }
{
    let tree = files.version();
    let setting = Setting {
        alloc,
        main: path,
        tree,
    };
    let mut paths = ByteTexts::new(alloc);
    paths.push(ByteText::from_slice(alloc, path)?)?;
    let mut reading = Reading {
        paths,
        size: 0,
        lines: Directives::new(alloc),
    };
    let outcome = read_main(&setting, files, &mut reading);
    let Reading {
        paths,
        size: _,
        lines,
    } = reading;
    match outcome {
        Ok(()) => Ok(Expanded {
            directives: lines,
            paths,
        }),
        Err(Stop::Fault(fault)) => {
            let path = path_at(alloc, paths, fault.file);
            Err(ExpandError::Fault(PlacedFault { fault, path }))
        }
        Err(Stop::Failed(fault)) => {
            let path = path_at(alloc, paths, fault.file);
            Err(ExpandError::Failed(PlacedFault { fault, path }))
        }
        Err(Stop::OutOfMemory) => Err(ExpandError::OutOfMemory),
    }
}
