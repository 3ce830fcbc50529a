// Laws of the paths of files.
ghost use Rattle.file_path.specs.Acts.{LocatedSettles, SettlesBehindLocated};
ghost use Rattle.file_path.specs.Laws.{PathsStayInRoot};

use ngx_variables::value_settles;

/// Finding a path as acts changes no variable, and gives where the file is.
pub fn located_settles<C, R>()
    ensures { LocatedSettles C R }
{
    value_settles::<C, R>();
}

/// What follows goes on with where the file is, at the same variables.
pub fn settles_behind_located<C, R, A>()
    ensures { SettlesBehindLocated C R A }
{
    value_settles::<C, R>();
}

/// A path that is found begins with the text of `root` or `alias`, and has no segment that leads out of it.
pub fn paths_stay_in_root()
    ensures { PathsStayInRoot }
{}
