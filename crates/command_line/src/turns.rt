// How many turns are asked for.
ghost use Rattle.std.specs.Prelude.{◌≡◌};
ghost use Rattle.command_line.specs.Words.{turns_of as turns_for};

use text_words::{are_decimal, value_of};

/// No more turns can be asked for.
const MOST_TURNS: u64 = 1000000000;

/// How many turns are taken where no number is said: serving goes on.
pub const ALL_TURNS: u64 = 18446744073709551615;

/// How many turns a word asks for: decimal digits, from 1 to the most.
#[tactic(auto, unfolding(crate::specs::Words::turns_of, crate::specs::Words::most_turns))]
pub fn turns_of(word: &[u8]) -> Option<u64>
    ensures { result ≡ turns_for word.now }
{
    if !are_decimal(word) {
        return None;
    }
    match value_of(word) {
        Some(turns) => {
            if 1 <= turns && turns <= MOST_TURNS {
                Some(turns)
            } else {
                None
            }
        }
        None => None,
    }
}
