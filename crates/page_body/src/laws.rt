// What the words of a page's contracts mean.
ghost use Rattle.page_body.specs.Reading.{ReadingSettles, WritingSettles};
ghost use Rattle.family_meaning.specs.request_meaning.Serving.{Answer};

/// An act of which some variables are read settles as what is left of it does.
pub fn reading_settles()
    ensures { ReadingSettles Answer }
{}

/// An act that writes a text next has settled.
pub fn writing_settles()
    ensures { WritingSettles Answer }
{}
