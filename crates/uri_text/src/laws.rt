//! What holds of every target and every path: each function's contract is a law, and its body does nothing.
ghost use Rattle.uri_text.specs.Laws.{PathsAreNormal, NormalPathsStay, EscapedPathsAreReadBack, MergedTargetsPass, AbsoluteFormsNameTheirPath};

/// A path that [`crate::normal`] answers begins with `/` and has no segment `.` or `..`, and none that is empty but the
/// last where slashes are merged. So no path leads out of the folder that it is put after.
pub fn paths_are_normal()
    ensures { PathsAreNormal }
{}

/// A normal path that needs no escape names itself.
pub fn normal_paths_stay()
    ensures { NormalPathsStay }
{}

/// A normal path of bytes other than zero, as [`crate::escaped`] writes it, names itself: a redirect to it leads back to it.
pub fn escaped_paths_are_read_back()
    ensures { EscapedPathsAreReadBack }
{}

/// A target that names a path where slashes are merged names one where they aren't.
pub fn merged_targets_pass()
    ensures { MergedTargetsPass }
{}

/// A target `http://host..` names what comes after its host, with a slash before it where it has none.
pub fn absolute_forms_name_their_path()
    ensures { AbsoluteFormsNameTheirPath }
{}
