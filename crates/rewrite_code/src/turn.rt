// Where a `rewrite` that matched leads.
ghost use Rattle.std.specs.Prelude.{◌≡◌, ℕ, ◌+◌, ◌<◌, ◌≤◌, Bool, true, false, List, [], ◌∷◌, ◌++◌, length, None, Some, IfOk};
ghost use Rattle.ngx_variables.specs.Grammar.{begins_with};
ghost use Rattle.site_whole.specs.site_model.declared.site.Site.{Site as SiteRow};
ghost use Rattle.site_whole.specs.Whole.{flag_seen};
ghost use Rattle.request_meaning.specs.Cuts.{ends_in_question, rewritten_args};
ghost use Rattle.request_meaning.specs.Rewriting.{Passed, rewrite_by, rewrite_to};
ghost use Rattle.rewrite_code.specs.Texts.{aim_seen};
ghost use Rattle.rewrite_code.specs.Places.{progress_seen};
ghost use Rattle.rewrite_code.specs.Moves.{move_seen, course_step};

use crate::place::{Ending, Progress};
use crate::step::Move;
use crate::target::{Aim, rewritten_args, with_args};
use byte_text::{ByteText, OutOfMemory};
use ngx_variables::Value;
use site_whole::site_model::Flag;
use std::alloc::Global;

/// Where it leads: to a redirect with this code; or to another path, after which a location is sought or none, and the
/// program ends or goes on.
#[derive(Clone, Copy)]
pub enum Course {
    Moves(u16),
    Goes { seeks: bool, ends: bool },
}

/// A text that begins with the scheme of an address redirects whatever the flag is.
fn course_of(is_url: bool, flag: Flag) -> Course
    ensures { (p : Passed) (path args : List ℕ)
        → rewrite_by is_url (flag_seen flag) p path args ≡ course_step result p path args }
{
    match (flag, is_url) {
        (Flag::Permanent, _) => Course::Moves(301),
        (Flag::Redirect, _) => Course::Moves(302),
        (_, true) => Course::Moves(302),
        (Flag::NoFlag, false) => Course::Goes {
            seeks: true,
            ends: false,
        },
        (Flag::Last, false) => Course::Goes {
            seeks: true,
            ends: true,
        },
        (Flag::Break, false) => Course::Goes {
            seeks: false,
            ends: true,
        },
    }
}

fn begins_with_slash(path: &[u8]) -> bool
    ensures { result ≡ begins_with 47 path.now }
{
    match path {
        [b'/', ..] => true,
        _ => false,
    }
}

/// Another path, which isn't made normal again.
fn change(progress: &mut Progress, path: ByteText, args: ByteText, seeks: bool)
    ensures { progress.new ≡ record progress.old {
      request = record (progress.old.request) { path = path; args = args };
      inside = true;
      seeks = seeks;
    } }
{
    progress.request.path = path;
    progress.request.args = args;
    progress.inside = true;
    progress.seeks = seeks;
}

/// Follows a course with a path and arguments.
fn follow(
    course: Course,
    progress: &mut Progress,
    path: ByteText,
    args: ByteText,
) -> Result<Move, OutOfMemory>
    ensures { IfOk result (λ move. (site : SiteRow)
        → course_step course (progress_seen site progress.old) path args
        ≡ move_seen site progress.new move) }
{
    match course {
        Course::Moves(code) => {
            let to = with_args(path, args.as_slice())?;
            Ok(Move::Stop(Ending::Redirect { code, to: Some(to) }))
        }
        Course::Goes { seeks, ends } => {
            if !begins_with_slash(path.as_slice()) {
                return Ok(Move::Stop(Ending::Failed { leading: false }));
            }
            change(progress, path, args, seeks);
            if ends {
                return Ok(Move::Stop(Ending::End));
            }
            Ok(Move::On { skip: 0 })
        }
    }
}

/// What a `rewrite` does with what its text evaluates to.
pub(crate) fn turn(
    alloc: Global,
    to: &Value,
    is_url: bool,
    flag: Flag,
    progress: &mut Progress,
    aim: Aim,
) -> Result<Move, OutOfMemory>
    ensures { IfOk result (λ move. (site : SiteRow)
        → rewrite_to to.now is_url (flag_seen flag) (progress_seen site progress.old)
        (Some (aim_seen aim))
        ≡ move_seen site progress.new move) }
{
    let Aim { path, args } = aim;
    let args = rewritten_args(alloc, to, progress.request.args.as_slice(), args)?;
    follow(course_of(is_url, flag), progress, path, args)
}
