// The faults of a directive alone.
ghost use Rattle.std.specs.Prelude.{◌≡◌, ℕ, List, Some, not, ◌&&◌, ◌||◌, map, IfOk};
ghost use Rattle.conf_text.specs.declared.directive.Directive.{Directive as Line};
ghost use Rattle.conf_table.specs.Table.{entry_of};
ghost use Rattle.std.specs.Prelude.{Option, is_some};
ghost use Rattle.rewrite_compile.specs.Conditions.{condition_of};
ghost use Rattle.rewrite_compile.specs.Readings.{if_by};
ghost use Rattle.rewrite_compile.specs.declared.raw.RawCondition.{RawCondition};
ghost use Rattle.conf_check.specs.Gives.{fault_of, faulty, ReadsAlone};
ghost use Rattle.std.specs.List.{list_any};
ghost use Rattle.http_types.specs.declared.words.Addr.{Addr as End};
ghost use Rattle.conf_values.specs.TextSet.{holds};
ghost use Rattle.conf_values.specs.Texts.{is_text, is_folder_text};
ghost use Rattle.conf_values.specs.Listening.{listened_by as address, is_marked};
ghost use Rattle.conf_block.specs.declared.location.Kind.{Kind as Like};
ghost use Rattle.conf_block.specs.Locations.{Key as Place, key_of as key};
ghost use Rattle.conf_check.specs.Keys.{same_key};
ghost use Rattle.conf_check.specs.LocationSet.{has_location};
ghost use Rattle.conf_block.specs.Roles.{role_of as role};
ghost use Rattle.conf_check.specs.Ends.{same_addr, has_end};
ghost use Rattle.conf_check.specs.Faults.{within, is_counted, is_named, listen_fault, location_fault, unless, first_word, begins_with_digit, named_fault, set_fault, value_fault, is_beside, rule_fault, own_fault};
ghost use Rattle.conf_check.specs.Before.{Remembers};

use crate::before::Before;
use crate::ends::Ends;
use crate::error::ReadError;
use byte_text::{ByteText, OutOfMemory};
use conf_block::{Content, has_modifier, is_misplaced, key_of, place_of, role_of};
use conf_table::{DirectiveRule, Role, entry};
use conf_text::{ConfFault, Directive, FaultKind};
use conf_values::{
    TextSet, are_listed, are_values, has_known_parameters, is_folder_text, is_marked, is_return,
    is_text, listened_by, variable_in,
};
use http_types::Addr;
use ngx_variables::is_builtin;
use rewrite_compile::{Reading, if_reading};
use std::alloc::Global;

/// A fault of this kind of the directive.
pub fn fault_of(
    alloc: Global,
    directive: &Directive,
    kind: FaultKind,
) -> Result<ConfFault, OutOfMemory>
    ensures { IfOk result (λ fault. fault ≡ fault_of directive.now kind) }
{
    Ok(ConfFault {
        kind,
        file: directive.file,
        line: directive.line,
        word: Some(ByteText::from_slice(alloc, directive.name.as_slice())?),
    })
}

/// The fault of this kind, if there is one.
#[tactic(auto, unfolding(crate::specs::Gives::faulty))]
pub fn wrong(alloc: Global, directive: &Directive, kind: Option<FaultKind>) -> Result<(), ReadError>
    ensures { ReadsAlone (λ x. x) result (faulty directive.now kind) }
{
    match kind {
        None => Ok(()),
        Some(kind) => match fault_of(alloc, directive, kind) {
            Ok(fault) => Err(ReadError::Fault(fault)),
            Err(OutOfMemory) => Err(ReadError::OutOfMemory),
        },
    }
}

fn within(count: usize, greatest: Option<u32>) -> bool
    ensures { result ≡ within count greatest }
{
    match greatest {
        None => true,
        Some(most) => count <= most as usize,
    }
}

/// Whether a directive has as many words as its rule says, and a block exactly where one is due.
fn is_counted(rule: &DirectiveRule, directive: &Directive) -> bool
    ensures { result ≡ is_counted rule.now directive.now }
{
    let count = directive.args.len();
    rule.least as usize <= count && within(count, rule.greatest) && rule.block == directive.block
}

/// Whether an address is in the level before, or has a default server before and is to have another.
fn is_taken(marked: &Ends, before: &Before<'_>, addr: Addr, words: &[ByteText]) -> bool
    ensures { (earlier : List End) → ((addr : End) → has_end before.now.addrs.keys addr
        ≡ list_any (λ a. same_addr a addr) earlier) →
        result ≡ (list_any (λ a. same_addr a addr) earlier
        || (is_marked words.now && has_end marked.now.keys addr)) }
{
    before.has_addr(addr) || (is_marked(words) && marked.has(addr))
}

fn listen_fault(marked: &Ends, before: &Before<'_>, words: &[ByteText]) -> Option<FaultKind>
    ensures { (earlier : List End) → ((addr : End) → has_end before.now.addrs.keys addr
        ≡ list_any (λ a. same_addr a addr) earlier) →
        result ≡ listen_fault (has_end marked.now.keys) (address words.now) earlier words.now }
{
    match listened_by(words) {
        None => Some(FaultKind::BadValue),
        Some(addr) => {
            if is_taken(marked, before, addr, words) {
                Some(FaultKind::Duplicate)
            } else if has_known_parameters(words) {
                None
            } else {
                Some(FaultKind::BadValue)
            }
        }
    }
}

/// A location like one before it, or a modifier that is none.
fn location_fault(before: &Before<'_>, words: &[ByteText]) -> Option<FaultKind>
    ensures { (earlier : List Place) → ((kind : Like) (text : List ℕ) →
        has_location before.now.locations kind text ≡ list_any (same_key kind text) earlier) →
        result ≡ location_fault (key words.now) earlier words.now }
{
    match key_of(words) {
        None => {
            if has_modifier(words) {
                None
            } else {
                Some(FaultKind::BadValue)
            }
        }
        Some(key) => {
            if before.has_location(key) {
                Some(FaultKind::Duplicate)
            } else {
                None
            }
        }
    }
}

/// Values that are right, or not.
fn unless(right: bool) -> Option<FaultKind>
    ensures { result ≡ unless right }
{
    if right {
        None
    } else {
        Some(FaultKind::BadValue)
    }
}

/// Whether the first word is the text of a folder.
fn is_folder(alloc: Global, known: &TextSet, words: &[ByteText]) -> Result<bool, OutOfMemory>
    ensures { IfOk result
        (λ r. r ≡ first_word (is_folder_text (holds known.now.keys)) words.now) }
{
    match words {
        [] => Ok(false),
        [word, ..] => is_folder_text(alloc, known, word.as_slice()),
    }
}

/// Whether the first word is a text.
fn is_first_text(alloc: Global, known: &TextSet, words: &[ByteText]) -> Result<bool, OutOfMemory>
    ensures { IfOk result (λ r. r ≡ first_word (is_text (holds known.now.keys)) words.now) }
{
    match words {
        [] => Ok(false),
        [word, ..] => is_text(alloc, known, word.as_slice()),
    }
}

fn begins_with_digit(name: &[u8]) -> bool
    ensures { result ≡ begins_with_digit name.now }
{
    match name {
        [] => false,
        [first, ..] => 49 <= *first && *first <= 57,
    }
}

/// What is wrong with the variable that is set, and with its text.
fn named_fault(
    alloc: Global,
    known: &TextSet,
    name: Option<ByteText>,
    text: &[ByteText],
) -> Result<Option<FaultKind>, OutOfMemory>
    ensures { IfOk result (λ kind. kind ≡ named_fault (holds known.now.keys) name text.now) }
{
    let Some(name) = name else {
        return Ok(Some(FaultKind::BadValue));
    };
    if is_builtin(name.as_slice()) {
        return Ok(Some(FaultKind::BuiltinSet));
    }
    if begins_with_digit(name.as_slice()) {
        return Ok(Some(FaultKind::BadValue));
    }
    Ok(unless(is_first_text(alloc, known, text)?))
}

fn set_fault(
    alloc: Global,
    known: &TextSet,
    words: &[ByteText],
) -> Result<Option<FaultKind>, OutOfMemory>
    ensures { IfOk result (λ kind. kind ≡ set_fault (holds known.now.keys) words.now) }
{
    match words {
        [] => Ok(Some(FaultKind::BadValue)),
        [word, text @ ..] => {
            let name = variable_in(alloc, word.as_slice())?;
            named_fault(alloc, known, name, text)
        }
    }
}

fn is_step(reading: &Reading) -> bool
    ensures { (condition : Option RawCondition) → reading.now ≡ if_by condition →
        result ≡ is_some condition }
{
    match reading {
        Reading::Step(_) => true,
        Reading::Wrong(_) => false,
    }
}

/// Whether words are the condition of an `if`.
fn is_condition(alloc: Global, known: &TextSet, words: &[ByteText]) -> Result<bool, OutOfMemory>
    ensures { IfOk result (λ r. r ≡ is_some (condition_of (holds known.now.keys) words.now)) }
{
    let reading = if_reading(alloc, known, words)?;
    Ok(is_step(&reading))
}

/// The names of the variables that are set, and the addresses that have a default server.
#[derive(Clone, Copy)]
pub struct Around<'a> {
    pub known: &'a TextSet,
    pub marked: &'a Ends,
}

/// What is wrong with the values of a directive.
fn value_fault(
    alloc: Global,
    around: Around<'_>,
    role: Role,
    before: &Before<'_>,
    directive: &Directive,
) -> Result<Option<FaultKind>, OutOfMemory>
    ensures { IfOk result (λ kind. (earlier : List Line) →
        Remembers (map (λ n. n.now) before.now.names.items) before.now.addrs.keys
        before.now.locations earlier →
        kind ≡ value_fault (holds around.entry.known.now.keys)
        (has_end around.entry.marked.now.keys) role earlier directive.now) }
{
    let words = directive.args.as_slice();
    match role {
        Role::Listen => Ok(listen_fault(around.marked, before, words)),
        Role::Location => Ok(location_fault(before, words)),
        Role::Return => Ok(unless(is_return(alloc, around.known, words)?)),
        Role::Root | Role::Alias => Ok(unless(is_folder(alloc, around.known, words)?)),
        Role::Setting(setting) => Ok(unless(are_values(setting, words))),
        Role::Listing(listing) => Ok(unless(are_listed(alloc, around.known, listing, words)?)),
        Role::Set => set_fault(alloc, around.known, words),
        Role::If => Ok(unless(is_condition(alloc, around.known, words)?)),
        _ => Ok(None),
    }
}

/// Whether `root` and `alias` would be beside each other.
fn is_beside(role: Role, before: &Before<'_>) -> bool
    ensures { (earlier : List Line) →
        Remembers (map (λ n. n.now) before.now.names.items) before.now.addrs.keys
        before.now.locations earlier →
        result ≡ is_beside role earlier }
{
    match role {
        Role::Root => before.has_name(b"alias"),
        Role::Alias => before.has_name(b"root"),
        _ => false,
    }
}

/// Whether another of its name is before it, or one that may not be beside it.
fn is_again(rule: &DirectiveRule, before: &Before<'_>, name: &[u8]) -> bool
    requires { entry_of name.now ≡ Some rule.now }
    ensures { (earlier : List Line) →
        Remembers (map (λ n. n.now) before.now.names.items) before.now.addrs.keys
        before.now.locations earlier →
        result ≡ ((not rule.now.many && is_named name.now earlier)
        || is_beside (role name.now) earlier) }
{
    (!rule.many && before.has_name(name)) || is_beside(role_of(name), before)
}

/// What is wrong with a directive of this rule.
fn rule_fault(
    alloc: Global,
    around: Around<'_>,
    rule: &DirectiveRule,
    here: Content,
    before: &Before<'_>,
    directive: &Directive,
) -> Result<Option<FaultKind>, OutOfMemory>
    requires { entry_of directive.now.name ≡ Some rule.now }
    ensures { IfOk result (λ kind. (earlier : List Line) →
        Remembers (map (λ n. n.now) before.now.names.items) before.now.addrs.keys
        before.now.locations earlier →
        kind ≡ rule_fault (holds around.entry.known.now.keys)
        (has_end around.entry.marked.now.keys) (Some rule.now) here earlier directive.now) }
{
    let name = directive.name.as_slice();
    let role = role_of(name);
    if !rule.places.contains(place_of(here))
        || is_misplaced(here, role, directive.args.as_slice())
    {
        Ok(Some(FaultKind::NotHere))
    } else if !is_counted(rule, directive) {
        Ok(Some(FaultKind::Count))
    } else if is_again(rule, before, name) {
        Ok(Some(FaultKind::Duplicate))
    } else {
        value_fault(alloc, around, role, before, directive)
    }
}

/// What is wrong with a directive that is here, after these of its level.
#[tactic(auto, unfolding(crate::specs::Faults::own_fault))]
pub fn own_fault(
    alloc: Global,
    around: Around<'_>,
    here: Content,
    before: &Before<'_>,
    directive: &Directive,
) -> Result<Option<FaultKind>, OutOfMemory>
    ensures { IfOk result (λ kind. (earlier : List Line) →
        Remembers (map (λ n. n.now) before.now.names.items) before.now.addrs.keys
        before.now.locations earlier →
        kind ≡ own_fault (holds around.entry.known.now.keys)
        (has_end around.entry.marked.now.keys) here earlier directive.now) }
{
    match entry(directive.name.as_slice()) {
        None => Ok(Some(FaultKind::Unknown)),
        Some(rule) => rule_fault(alloc, around, rule, here, before, directive),
    }
}
