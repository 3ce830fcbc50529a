// The site of a configuration.
ghost use Rattle.std.specs.Prelude.{◌≡◌, true, slice_index_or, [], IfOk, IfErr};
ghost use Rattle.ngx_outside.specs.Records.{Adds};
ghost use Rattle.link_service.specs.Seen.{Grown};
ghost use Rattle.conf_include.specs.Listings.{Names, IsNaming};
ghost use Rattle.conf_include.specs.Asked.{IsAskedAt};
ghost use Rattle.ngx_cli.specs.declared.site.SiteError.TheVariants.{OutOfMemory as NoMemory};
ghost use Rattle.ngx_cli.specs.Sites.{AreRaceless, AreRacesOf, conflicts_of, Describes, FailsIf, Reading, unread_by, site_at as site_found};

use byte_text::{ByteText, ByteTexts, OutOfMemory};
use conf_include::{ExpandError, Expanded, PlacedFault, expand, folder_of};
use conf_inherit::conf_check::ReadError;
use conf_inherit::{Built, build};
use conf_races::{FoundRaces, races};
use ngx_outside::Files;
use ngx_pattern::PatternMaker;
use std::alloc::Global;

/// A configuration that was read: its site with the site's patterns, its variables that can show in which order subrequests
/// run, and the paths of its files by their numbers.
#[derive(Drop)]
pub struct ReadSite {
    pub built: Built,
    pub races: FoundRaces,
    pub paths: ByteTexts,
}

/// Why a configuration was not read.
#[derive(Debug, Drop)]
pub enum SiteError {
    /// Its first fault.
    Fault(PlacedFault),
    /// The files failed, and their count of faults rose. The fault is of the kind `ReadFault`.
    Failed(PlacedFault),
    /// The maker refused a pattern, and its count of refusals rose. The fault is of the kind `PatternTooBig`.
    TooBig(PlacedFault),
    OutOfMemory,
}

// The path of a number; no bytes where there is none.
fn path_at(alloc: Global, paths: ByteTexts, number: u32) -> ByteText
    ensures { result ≡ slice_index_or paths number [] }
{
    let mut paths = paths.into_vec();
    let at = number as usize;
    if at < paths.len() {
        paths.swap_remove(at)
    } else {
        ByteText::new(alloc)
    }
}

// Why files were not read.
fn unread(error: ExpandError) -> SiteError
    ensures { result ≡ unread_by error }
{
    match error {
        ExpandError::Fault(placed) => SiteError::Fault(placed),
        ExpandError::Failed(placed) => SiteError::Failed(placed),
        ExpandError::OutOfMemory => SiteError::OutOfMemory,
    }
}

// A site with the variables that the race check names of it.
fn checked(alloc: Global, built: Built, read: Expanded) -> Result<ReadSite, SiteError>
    ensures site { IfOk result (λ found. found.built ≡ built) }
    ensures paths { IfOk result (λ found. found.paths ≡ read.paths) }
    ensures races { IfOk result (λ found. AreRacesOf found read.directives) }
    ensures none { IfOk result (λ found. conflicts_of found ≡ [] → AreRaceless found.built) }
    ensures memory { IfErr result (λ e. e ≡ NoMemory) }
{
    let Expanded { directives, paths } = read;
    match races(alloc, &built.site, directives.into_vec()) {
        Ok(races) => Ok(ReadSite {
            built,
            races,
            paths,
        }),
        Err(OutOfMemory) => Err(SiteError::OutOfMemory),
    }
}

// The same, with the number of the newest tree asked for at the beginning alone.
#[tactic(auto, unfolding(crate::specs::Sites::site_at))]
fn site_read<F: Files, M: PatternMaker>(
    alloc: Global,
    files: &mut F,
    maker: &mut M,
    path: &[u8],
) -> Result<ReadSite, SiteError>
    ensures exact { (F.seen files.old).tells ≡ true →
        (F.seen files.new).newest ≡ (F.seen files.old).newest → (names : Names) →
        IsNaming ((F.seen files.old).trees (F.seen files.old).newest) names →
        Describes (IsAskedAt ((F.seen files.old).trees (F.seen files.old).newest) names path.now)
        result (site_found
        ((F.seen files.old).trees (F.seen files.old).newest) names path.now) }
    ensures none { IfOk result (λ found. conflicts_of found ≡ [] → AreRaceless found.built) }
    ensures cause { FailsIf result (F.seen files.old).faults (F.seen files.new).faults
        (M.refusals maker.old) (M.refusals maker.new) }
    ensures versions { Adds (F.seen files.old).newest (F.seen files.old).versions
        (F.seen files.new).versions }
    ensures tells { (F.seen files.new).tells ≡ (F.seen files.old).tells }
    ensures grown { Grown (F.seen files.old) (F.seen files.new) }
{
    let read = match expand(alloc, files, path) {
        Ok(read) => read,
        Err(error) => return Err(unread(error)),
    };
    let directives = read.directives.as_slice();
    match build(alloc, maker, folder_of(path), directives) {
        Ok(built) => match checked(alloc, built, read) {
            Ok(found) => Ok(found),
            Err(error) => Err(error),
        },
        Err(ReadError::Fault(fault)) => {
            let path = path_at(alloc, read.paths, fault.file);
            Err(SiteError::Fault(PlacedFault { fault, path }))
        }
        Err(ReadError::TooBig(fault)) => {
            let path = path_at(alloc, read.paths, fault.file);
            Err(SiteError::TooBig(PlacedFault { fault, path }))
        }
        Err(ReadError::OutOfMemory) => Err(SiteError::OutOfMemory),
    }
}

/// The site that a configuration describes, from its main file and the files that it includes, where the files' newest tree
/// stays the newest until it is read; and the variables that the race check names of it. The number of the newest tree is
/// asked for at the beginning and at the end. Patterns are made by this maker.
///
/// # Errors
///
/// `Fault` for the first fault of its files' texts, or of its directives. `Failed` only where the files failed in this call,
/// for a place at which they were asked, and `TooBig` only where the maker refused a pattern in it. `OutOfMemory`.
pub fn site_at<F: Files, M: PatternMaker>(
    alloc: Global,
    files: &mut F,
    maker: &mut M,
    path: &[u8],
) -> Result<ReadSite, SiteError>
    ensures exact { (F.seen files.old).tells ≡ true →
        (F.seen files.new).newest ≡ (F.seen files.old).newest → (names : Names) →
        IsNaming ((F.seen files.old).trees (F.seen files.old).newest) names →
        Describes (IsAskedAt ((F.seen files.old).trees (F.seen files.old).newest) names path.now)
        result (site_found
        ((F.seen files.old).trees (F.seen files.old).newest) names path.now) }
    ensures none { IfOk result (λ found. conflicts_of found ≡ [] → AreRaceless found.built) }
    ensures cause { FailsIf result (F.seen files.old).faults (F.seen files.new).faults
        (M.refusals maker.old) (M.refusals maker.new) }
    ensures reading { Reading (F.seen files.old) (F.seen files.new) }
{
    let outcome = site_read(alloc, files, maker, path);
    files.version();
    outcome
}
