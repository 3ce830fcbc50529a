// Sums of bytes.
ghost use Rattle.std.specs.Prelude.{◌≡◌, ◌+◌, ◌≤◌, length, vec_len, option_map, IfOk};
ghost use Rattle.replay_words.specs.Faults.{LineGives};
ghost use Rattle.replay_words.specs.Numbers.{most_times};
ghost use Rattle.replay_words.specs.Sums.{terms_of, sum_of, count_of, counts_of, sum_bytes, most_bytes, bytes_within};
ghost use Rattle.replay_words.specs.Escapes.{unescaped, onto};
ghost use Rattle.replay_words.specs.Steps.{term_view, term_views, counted_view, counted_views, behind_plus, times_at, term_at, times_text, capped, RepeatsFrom};

use crate::FaultKind;
use crate::escapes::{unescape_onto, unescaped_len};
use crate::faults::LineError;
use crate::numbers::times_of;
use crate::words::{Words, first_word, is_dash_alone, is_plus, is_times, next_word};
use byte_text::ByteText;
use std::alloc::Global;

const MOST_BYTES: u64 = 67108864;

/// A term of a sum: a word, and the word that says how many times it is taken.
#[derive(Clone, Copy)]
pub struct TermWords<'a> {
    pub word: &'a [u8],
    pub times: Option<&'a [u8]>,
}

/// A word, and how many times it is taken.
#[derive(Clone, Copy)]
pub struct CountedWord<'a> {
    pub word: &'a [u8],
    pub count: u64,
}

/// The words after a `+`, if the first word is one.
fn behind_plus<'a>(words: Words<'a>) -> Result<Option<Words<'a>>, LineError>
    ensures { LineGives (λ w. w) result (behind_plus words.entry) }
{
    match next_word(words) {
        None => Ok(None),
        Some((word, rest)) => {
            if !is_plus(word) {
                return Err(LineError::Fault(FaultKind::Word));
            }
            Ok(Some(rest))
        }
    }
}

/// A term whose number is due, and the words after the `+` that follows it.
fn times_at<'a>(
    word: &'a [u8],
    words: Words<'a>,
) -> Result<(TermWords<'a>, Option<Words<'a>>), LineError>
    ensures { LineGives (λ x. (term_view x.0, x.1)) result (times_at word.now words.entry) }
{
    let (times, rest) = first_word(words)?;
    let behind = behind_plus(rest)?;
    let term = TermWords {
        word,
        times: Some(times),
    };
    Ok((term, behind))
}

/// The first term, and the words after the `+` that follows it.
fn term_at<'a>(words: Words<'a>) -> Result<(TermWords<'a>, Option<Words<'a>>), LineError>
    ensures { LineGives (λ x. (term_view x.0, x.1)) result (term_at words.entry) }
{
    let (word, rest) = first_word(words)?;
    match next_word(rest) {
        None => Ok((TermWords { word, times: None }, None)),
        Some((next, behind)) => {
            if is_times(next) {
                return times_at(word, behind);
            }
            if is_plus(next) {
                return Ok((TermWords { word, times: None }, Some(behind)));
            }
            Err(LineError::Fault(FaultKind::Word))
        }
    }
}

/// The terms of a sum of at least one.
fn terms_of<'a>(alloc: Global, words: Words<'a>) -> Result<Vec<TermWords<'a>>, LineError>
    ensures { LineGives (λ v. term_views v.items) result (terms_of words.entry) }
{
    let mut terms = Vec::new(alloc);
    let mut words = words;
    'terms: loop {
        let (term, behind) = term_at(words)?;
        terms.push(term)?;
        match behind {
            None => return Ok(terms),
            Some(rest) => words = rest,
        }
    }
}

/// A sum: its terms, or none where it is `-` alone.
#[tactic(auto, unfolding(crate::specs::Sums::sum_of))]
pub fn sum_of<'a>(alloc: Global, words: Words<'a>) -> Result<Vec<TermWords<'a>>, LineError>
    ensures { LineGives (λ v. term_views v.items) result (sum_of words.entry) }
{
    if is_dash_alone(&words) {
        return Ok(Vec::new(alloc));
    }
    terms_of(alloc, words)
}

/// How many times the word of a term is taken.
#[tactic(auto, unfolding(crate::specs::Numbers::most_times))]
fn count_of(times: Option<&[u8]>) -> Result<u64, LineError>
    ensures value { LineGives (λ n. n) result (count_of (option_map (λ w. w.now) times.entry)) }
    ensures within { IfOk result (λ n. n ≤ most_times) }
{
    match times {
        None => Ok(1),
        Some(word) => times_of(word),
    }
}

/// The numbers of the terms.
pub fn counts_of<'a>(
    alloc: Global,
    terms: &[TermWords<'a>],
) -> Result<Vec<CountedWord<'a>>, LineError>
    ensures { LineGives (λ v. counted_views v.items) result (counts_of (term_views terms.now)) }
{
    let mut counted = Vec::new(alloc);
    for term in terms {
        let count = count_of(term.times)?;
        counted.push(CountedWord {
            word: term.word,
            count,
        })?;
    }
    Ok(counted)
}

/// Leaves the bytes from `start` on there `count` times, in place of once.
fn repeat_from(out: &mut Vec<u8>, start: usize, count: u64) -> Result<(), LineError>
    requires { start ≤ vec_len out.old }
    ensures { RepeatsFrom start count out.old.items result out.new.items }
{
    if count == 0 {
        out.truncate(start);
        return Ok(());
    }
    let len = out.len() - start;
    let mut done: u64 = 1;
    'copies: while done < count {
        let more = done.min(count - done);
        out.extend_from_within(start..start + more as usize * len)?;
        done += more;
    }
    Ok(())
}

/// Appends the bytes that a word spells to these, `count` times.
fn term_onto(out: &mut Vec<u8>, word: &[u8], count: u64) -> Result<(), LineError>
    ensures { LineGives (λ _. out.new.items) result
        (onto out.old.items (times_text count (unescaped word.now))) }
{
    let start = out.len();
    unescape_onto(out, word)?;
    repeat_from(out, start, count)?;
    Ok(())
}

/// Appends the bytes of a sum to these bytes.
fn sum_onto(out: &mut Vec<u8>, terms: &[CountedWord<'_>]) -> Result<(), LineError>
    ensures { LineGives (λ _. out.new.items) result
        (onto out.old.items (sum_bytes (counted_views terms.now))) }
{
    for term in terms {
        term_onto(out, term.word, term.count)?;
    }
    Ok(())
}

/// How many bytes a sum has, up to the end of 64 bits.
fn sum_len(terms: &[CountedWord<'_>]) -> Result<u64, LineError>
    ensures { LineGives (λ n. n) result (capped 0 (sum_bytes (counted_views terms.now))) }
{
    let mut total: u64 = 0;
    for term in terms {
        let len = unescaped_len(term.word)?;
        total = total.saturating_add(term.count.saturating_mul(len as u64));
    }
    Ok(total)
}

/// The bytes of a sum, where `used` bytes of the script come before it.
#[tactic(auto, unfolding(crate::specs::Sums::bytes_within, crate::specs::Sums::most_bytes))]
pub fn bytes_within(
    alloc: Global,
    used: u64,
    terms: &[CountedWord<'_>],
) -> Result<ByteText, LineError>
    requires { used ≤ most_bytes }
    ensures value { LineGives (λ t. t) result (bytes_within used (counted_views terms.now)) }
    ensures within { IfOk result (λ t. used + length t ≤ most_bytes) }
{
    let total = sum_len(terms)?;
    if total > MOST_BYTES - used {
        return Err(LineError::Fault(FaultKind::Number));
    }
    let mut out = Vec::with_capacity(alloc, total as usize)?;
    sum_onto(&mut out, terms)?;
    Ok(ByteText::from_vec(out))
}
