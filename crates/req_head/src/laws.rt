// Laws of what the bytes at the front of a connection's input decide, for the layers above.
ghost use Rattle.req_head.specs.Laws.{AwaitsFirst, HeadStays, RefusalStays, SizeFits, FullDecides, GrammarDecides};

/// Before the first byte, more are waited for.
pub fn awaits_first()
    ensures { AwaitsFirst }
{}

/// A head stays as it is, whatever bytes follow.
pub fn head_stays()
    ensures { HeadStays }
{}

/// A refusal stays as it is, whatever bytes follow.
pub fn refusal_stays()
    ensures { RefusalStays }
{}

/// A head has at least one byte, and no more than there are and than are looked at.
pub fn size_fits()
    ensures { SizeFits }
{}

/// With 8192 bytes no more are waited for.
pub fn full_decides()
    ensures { FullDecides }
{}

/// What is decided is what the grammar of request heads says, with the limits and the tests.
pub fn grammar_decides()
    ensures { GrammarDecides }
{}
