// What directives mean to a reader of their text.
ghost use Rattle.conf_text.specs.Printing.{PrintedIsRead};

/// Directives whose depths are those of blocks, and whose words are within the bound, are printed with each word in
/// quotes and each directive on a line of its own. What is printed is read back as the same directives, apart from
/// their file and lines.
pub fn what_is_printed_is_read()
    ensures { PrintedIsRead }
{}
