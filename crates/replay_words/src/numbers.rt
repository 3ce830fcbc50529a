// Numbers in a script.
ghost use Rattle.std.specs.Prelude.{◌≡◌, ◌≤◌, MatchOption, IfOk, IfSome};
ghost use Rattle.replay_words.specs.Faults.{LineGives};
ghost use Rattle.replay_words.specs.Addrs.{port_of};
ghost use Rattle.replay_words.specs.Numbers.{is_numeral, number, most_id, most_room, last_second, most_times};

use crate::FaultKind;
use crate::faults::LineError;
use text_words::{are_decimal, value_of};

const MOST_ID: u64 = 4294967295;

const MOST_ROOM: u64 = 18446744073709551615;

const MOST_TIMES: u64 = 16777216;

const LAST_SECOND: u64 = 253402300799;

fn is_numeral(word: &[u8]) -> bool
    ensures { result ≡ is_numeral word.now }
{
    match word {
        [] => false,
        [first, rest @ ..] => are_decimal(word) && (*first != b'0' || rest.is_empty()),
    }
}

/// The number that a word writes, if it is one of at most this value.
#[tactic(auto, unfolding(crate::specs::Numbers::number))]
fn number(word: &[u8], most: u64) -> Option<u64>
    ensures value { MatchOption result (number most word.now ≡ Err FaultKind.Number)
        (λ n. number most word.now ≡ Ok n) }
    ensures within { IfSome result (λ n. n ≤ most) }
{
    if !is_numeral(word) {
        return None;
    }
    let Some(value) = value_of(word) else {
        return None;
    };
    if value > most {
        return None;
    }
    Some(value)
}

/// The number of a connection or a node.
#[tactic(auto, unfolding(crate::specs::Numbers::most_id))]
pub fn id_of(word: &[u8]) -> Result<u32, LineError>
    ensures { LineGives (λ n. n) result (number most_id word.now) }
{
    match number(word, MOST_ID) {
        Some(id) => Ok(id as u32),
        None => Err(LineError::Fault(FaultKind::Number)),
    }
}

/// A number of bytes that can be sent.
#[tactic(auto, unfolding(crate::specs::Numbers::most_room))]
pub fn room_of(word: &[u8]) -> Result<u64, LineError>
    ensures { LineGives (λ n. n) result (number most_room word.now) }
{
    match number(word, MOST_ROOM) {
        Some(room) => Ok(room),
        None => Err(LineError::Fault(FaultKind::Number)),
    }
}

/// How many times the word of a term is taken.
#[tactic(auto, unfolding(crate::specs::Numbers::most_times))]
pub fn times_of(word: &[u8]) -> Result<u64, LineError>
    ensures value { LineGives (λ n. n) result (number most_times word.now) }
    ensures within { IfOk result (λ n. n ≤ most_times) }
{
    match number(word, MOST_TIMES) {
        Some(times) => Ok(times),
        None => Err(LineError::Fault(FaultKind::Number)),
    }
}

/// A moment, in seconds since 1970.
#[tactic(auto, unfolding(crate::specs::Numbers::last_second))]
pub fn moment_of(word: &[u8]) -> Result<u64, LineError>
    ensures { LineGives (λ n. n) result (number last_second word.now) }
{
    match number(word, LAST_SECOND) {
        Some(second) => Ok(second),
        None => Err(LineError::Fault(FaultKind::Number)),
    }
}

/// A port, which has 16 bits.
#[tactic(auto, unfolding(crate::specs::Addrs::port_of))]
pub fn port_of(word: &[u8]) -> Option<u16>
    ensures { result ≡ port_of word.now }
{
    match number(word, 65535) {
        Some(port) => Some(port as u16),
        None => None,
    }
}
