// Where reading goes on in a text of lines.
ghost use Rattle.std.specs.Prelude.{◌≡◌, ◌+◌, ◌<◌, ◌^◌, [], ◌∷◌, length, MatchOption};
ghost use Rattle.replay_words.specs.Lines.{lines_of};
ghost use Rattle.replay_text.specs.Grammar.{ReadTo, place};

use replay_words::next_line;
use std::marker::Model;

/// The number of the next line, from 1, and the lines from there.
#[derive(Drop)]
pub struct Spot<'a> {
    number: u64,
    rest: &'a [u8],
}

impl<'a> Model for Spot<'a> {
    ghost Value = { ReadTo };

    ghost view = { λ s. place s.number (lines_of s.rest.now) };

    ghost invariant = { λ s. s.number + length s.rest.now < 2 ^ 64 };
}

impl<'a> Spot<'a> {
    /// The first line of a text.
    pub fn new(text: &'a [u8]) -> Spot<'a>
        ensures { result ≡ place 1 (lines_of text.now) }
    {
        Spot {
            number: 1,
            rest: text,
        }
    }

    pub fn number(&self) -> u64
        ensures { result ≡ self.now.number }
    {
        self.number
    }

    /// The next line and the place after it, if there is one.
    pub fn line(self) -> Option<(&'a [u8], Spot<'a>)>
        ensures lines { MatchOption result (self.entry.lines ≡ [])
            (λ x. self.entry.lines ≡ x.0.now ∷ x.1.lines) }
        ensures number { MatchOption result (self.entry.lines ≡ [])
            (λ x. x.1.number ≡ self.entry.number + 1) }
    {
        match next_line(self.rest) {
            None => None,
            Some((line, rest)) => {
                let behind = Spot {
                    number: self.number + 1,
                    rest,
                };
                Some((line, behind))
            }
        }
    }
}
