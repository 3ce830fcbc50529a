// What holds of each expansion.
ghost use Rattle.conf_include.specs.Laws.{FilesStandWhole};

/// Each file that was read is whole in a configuration's expansion: its own directives, without its includes, in their
/// order, each as many blocks deeper as its include. The expansion has no other directives.
pub fn files_stand_whole()
    ensures { FilesStandWhole }
{}
