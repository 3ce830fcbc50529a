// What holds of each head.
ghost use Rattle.resp_head.specs.Laws.{HeadIsWhole, HeadReadsBack};

/// No content of a [`ReplyHead`](crate::ReplyHead) splits its response (CWE-113): the head's text has no CR or LF but
/// those that end its lines and the empty line after them.
pub fn head_is_whole()
    ensures { HeadIsWhole }
{}

/// The grammar of `httparse` reads the text of a head as its status and its fields, in their order and with their
/// values, whatever follows. That grammar is unambiguous, so they are all that it reads.
pub fn head_reads_back()
    ensures { HeadReadsBack }
{}
