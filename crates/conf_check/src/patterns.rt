// The patterns of a directive: none is wrong.
ghost use Rattle.std.specs.Prelude.{◌≡◌, ℕ, List, ◌∷◌, [], IfOk, option_map};
ghost use Rattle.ngx_pattern.specs.Pattern.{Pattern, as_pattern};
ghost use Rattle.conf_values.specs.TextSet.{holds};
ghost use Rattle.rewrite_compile.specs.Numbered.{pattern_in, patterns_in_test, patterns_in};
ghost use Rattle.rewrite_compile.specs.Readings.{reading_by};
ghost use Rattle.conf_check.specs.Gives.{faulty};
ghost use Rattle.conf_check.specs.Patterns.{regex_case, name_pattern, location_patterns, patterns_of_name, name_patterns, reading_patterns, listing_patterns, patterns_with, bad_among, pattern_fault, Flawed, IsFlaw};

use crate::error::ReadError;
use crate::fault::fault_of;
use byte_text::{ByteText, OutOfMemory};
use conf_block::{Content, are_directives, role_of, text_in};
use conf_table::{Listing, Role};
use conf_text::{Directive, FaultKind};
use conf_values::{TextSet, begins_with, rest_of};
use ngx_pattern::{PatternFault, PatternMaker, PatternSet};
use rewrite_compile::{RawCondition, RawPattern, RawStep, RawTest, Reading, reading_by};
use std::alloc::Global;

/// Whether letters match in either case, where a location of these words is found by a regular expression.
#[tactic(auto, unfolding(crate::specs::Patterns::regex_case))]
pub fn regex_case(words: &[ByteText]) -> Option<bool>
    ensures { result ≡ regex_case words.now }
{
    match words {
        [] => None,
        [_] => None,
        [modifier, ..] => {
            let modifier = modifier.as_slice();
            if modifier == b"~".as_slice() {
                Some(false)
            } else if modifier == b"~*".as_slice() {
                Some(true)
            } else {
                None
            }
        }
    }
}

/// The regular expression of a name of a server, if it is one: what comes after its `~`.
pub fn name_pattern(word: &[u8]) -> Option<&[u8]>
    ensures { option_map (λ t. t.now) result ≡ name_pattern word.now }
{
    if begins_with(word, b'~') {
        Some(rest_of(word))
    } else {
        None
    }
}

/// What is wrong with patterns: one has no expression, or the maker refused one.
#[derive(Clone, Copy)]
pub enum Flaw {
    Bad,
    TooBig,
}

/// What is wrong with a pattern.
fn flaw_in<M: PatternMaker>(
    alloc: Global,
    maker: &mut M,
    text: &[u8],
    nocase: bool,
) -> Result<Option<Flaw>, OutOfMemory>
    ensures { IfOk result (λ flaw. Flawed (M.refusals maker.old) (M.refusals maker.new)
        (as_pattern text.now nocase ∷ []) flaw) }
{
    let mut patterns = PatternSet::new(alloc);
    match patterns.add(maker, text, nocase) {
        Ok(_id) => Ok(None),
        Err(PatternFault::Bad) => Ok(Some(Flaw::Bad)),
        Err(PatternFault::TooBig) => Ok(Some(Flaw::TooBig)),
        Err(PatternFault::OutOfMemory) => Err(OutOfMemory),
    }
}

fn location_flaw<M: PatternMaker>(
    alloc: Global,
    maker: &mut M,
    words: &[ByteText],
) -> Result<Option<Flaw>, OutOfMemory>
    ensures { IfOk result (λ flaw. Flawed (M.refusals maker.old) (M.refusals maker.new)
        (location_patterns words.now) flaw) }
{
    match regex_case(words) {
        None => Ok(None),
        Some(nocase) => flaw_in(alloc, maker, text_in(words), nocase),
    }
}

fn name_flaw<M: PatternMaker>(
    alloc: Global,
    maker: &mut M,
    word: &[u8],
) -> Result<Option<Flaw>, OutOfMemory>
    ensures { IfOk result (λ flaw. Flawed (M.refusals maker.old) (M.refusals maker.new)
        (patterns_of_name (name_pattern word.now)) flaw) }
{
    match name_pattern(word) {
        None => Ok(None),
        Some(text) => flaw_in(alloc, maker, text, true),
    }
}

fn names_flaw<M: PatternMaker>(
    alloc: Global,
    maker: &mut M,
    words: &[ByteText],
) -> Result<Option<Flaw>, OutOfMemory>
    ensures { IfOk result (λ flaw. Flawed (M.refusals maker.old) (M.refusals maker.new)
        (name_patterns words.now) flaw) }
{
    for word in words {
        let flaw = name_flaw(alloc, maker, word.as_slice())?;
        if flaw.is_some() {
            return Ok(flaw);
        }
    }
    Ok(None)
}

fn raw_flaw<M: PatternMaker>(
    alloc: Global,
    maker: &mut M,
    pattern: &RawPattern,
) -> Result<Option<Flaw>, OutOfMemory>
    ensures { IfOk result (λ flaw. Flawed (M.refusals maker.old) (M.refusals maker.new)
        (pattern_in pattern.now ∷ []) flaw) }
{
    flaw_in(alloc, maker, pattern.text.as_slice(), pattern.nocase)
}

fn test_flaw<M: PatternMaker>(
    alloc: Global,
    maker: &mut M,
    test: &RawTest,
) -> Result<Option<Flaw>, OutOfMemory>
    ensures { IfOk result (λ flaw. Flawed (M.refusals maker.old) (M.refusals maker.new)
        (patterns_in_test test.now) flaw) }
{
    match test {
        RawTest::Matches { pattern, .. } => raw_flaw(alloc, maker, pattern),
        RawTest::IsSet(_) | RawTest::Equals { .. } | RawTest::OnFile { .. } => Ok(None),
    }
}

fn step_flaw<M: PatternMaker>(
    alloc: Global,
    maker: &mut M,
    step: &RawStep,
) -> Result<Option<Flaw>, OutOfMemory>
    ensures { IfOk result (λ flaw. Flawed (M.refusals maker.old) (M.refusals maker.new)
        (patterns_in step.now) flaw) }
{
    match step {
        RawStep::If(RawCondition { test, .. }) => test_flaw(alloc, maker, test),
        RawStep::Rewrite { pattern, .. } => raw_flaw(alloc, maker, pattern),
        RawStep::Set { .. } | RawStep::Return { .. } | RawStep::Stop => Ok(None),
    }
}

fn reading_flaw<M: PatternMaker>(
    alloc: Global,
    maker: &mut M,
    reading: &Option<Reading>,
) -> Result<Option<Flaw>, OutOfMemory>
    ensures { IfOk result (λ flaw. Flawed (M.refusals maker.old) (M.refusals maker.new)
        (reading_patterns reading.now) flaw) }
{
    match reading {
        Some(Reading::Step(step)) => step_flaw(alloc, maker, step),
        Some(Reading::Wrong(_)) => Ok(None),
        None => Ok(None),
    }
}

/// What is wrong with the pattern of a directive of a rewrite program, if it is one.
fn read_flaw<M: PatternMaker>(
    alloc: Global,
    maker: &mut M,
    known: &TextSet,
    directive: &Directive,
) -> Result<Option<Flaw>, OutOfMemory>
    ensures { IfOk result (λ flaw. Flawed (M.refusals maker.old) (M.refusals maker.new)
        (reading_patterns (reading_by (holds known.now.keys) directive.now.name directive.now.args))
        flaw) }
{
    let words = directive.args.as_slice();
    let reading = reading_by(alloc, known, directive.name.as_slice(), words)?;
    reading_flaw(alloc, maker, &reading)
}

fn listing_flaw<M: PatternMaker>(
    alloc: Global,
    maker: &mut M,
    known: &TextSet,
    listing: Listing,
    directive: &Directive,
) -> Result<Option<Flaw>, OutOfMemory>
    ensures { IfOk result (λ flaw. Flawed (M.refusals maker.old) (M.refusals maker.new)
        (listing_patterns (holds known.now.keys) listing directive.now) flaw) }
{
    match listing {
        Listing::ServerName => names_flaw(alloc, maker, directive.args.as_slice()),
        _ => read_flaw(alloc, maker, known, directive),
    }
}

/// What is wrong with the patterns of a directive, in their order.
fn flaw_with<M: PatternMaker>(
    alloc: Global,
    maker: &mut M,
    known: &TextSet,
    role: Role,
    directive: &Directive,
) -> Result<Option<Flaw>, OutOfMemory>
    ensures { IfOk result (λ flaw. Flawed (M.refusals maker.old) (M.refusals maker.new)
        (patterns_with (holds known.now.keys) role directive.now) flaw) }
{
    match role {
        Role::Location => location_flaw(alloc, maker, directive.args.as_slice()),
        Role::Listing(listing) => listing_flaw(alloc, maker, known, listing, directive),
        _ => read_flaw(alloc, maker, known, directive),
    }
}

#[tactic(auto, unfolding(crate::specs::Gives::faulty))]
fn error_of(alloc: Global, directive: &Directive, flaw: Option<Flaw>) -> Result<(), ReadError>
    ensures { (before after : ℕ) (patterns : List Pattern) → Flawed before after patterns flaw
        → IsFlaw before after (faulty directive.now (bad_among patterns)) result }
{
    match flaw {
        None => Ok(()),
        Some(Flaw::Bad) => match fault_of(alloc, directive, FaultKind::Pattern) {
            Ok(fault) => Err(ReadError::Fault(fault)),
            Err(OutOfMemory) => Err(ReadError::OutOfMemory),
        },
        Some(Flaw::TooBig) => match fault_of(alloc, directive, FaultKind::PatternTooBig) {
            Ok(fault) => Err(ReadError::TooBig(fault)),
            Err(OutOfMemory) => Err(ReadError::OutOfMemory),
        },
    }
}

/// Checks that each pattern of a directive that is here has an expression.
pub fn check_patterns<M: PatternMaker>(
    alloc: Global,
    maker: &mut M,
    known: &TextSet,
    here: Content,
    directive: &Directive,
) -> Result<(), ReadError>
    ensures { IsFlaw (M.refusals maker.old) (M.refusals maker.new)
        (faulty directive.now (pattern_fault (holds known.now.keys) here directive.now)) result }
{
    if !are_directives(here) {
        return Ok(());
    }
    let role = role_of(directive.name.as_slice());
    let flaw = flaw_with(alloc, maker, known, role, directive)?;
    error_of(alloc, directive, flaw)
}
