// What the split of a document means.
ghost use Rattle.ssi_text.specs.Laws.{PiecesMakeNoDifference, UndecidedIsOpen};

/// A document that comes in two pieces, and so in any: what the first piece decides, and then what is undecided and the rest,
/// split on, give its parts and what they leave open. What is undecided decides nothing by itself.
pub fn pieces_make_no_difference()
    ensures { PiecesMakeNoDifference }
{}

/// Bytes are undecided exactly while it is open what they are, and fewer than 8192 of them: they may still be text, and
/// they may still begin a command that isn't well formed.
pub fn what_is_undecided_is_open()
    ensures { UndecidedIsOpen }
{}
