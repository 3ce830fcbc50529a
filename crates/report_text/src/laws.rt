// What a reader of the printed text finds in it.
ghost use Rattle.report_text.specs.Laws.{BytesReadBack, SentReadsBack};

/// Printed bytes are a text of printable ASCII, and escapes are read back as the bytes. So the texts of different bytes
/// differ, and none of them ends a line.
pub fn printed_bytes_read_back()
    ensures { BytesReadBack }
{}

/// A reader of the text of a run who takes its `sent` lines finds, connection by connection, the bytes that were sent on
/// each. So the texts of two runs are equal only if the same was sent.
pub fn what_was_sent_is_read_back()
    ensures { SentReadsBack }
{}
