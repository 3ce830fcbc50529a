// The directives before one in its level, as far as its faults ask for them.
ghost use Rattle.std.specs.Prelude.{◌≡◌, ℕ, List, [], ◌++◌, ◌∷◌, ◌||◌, false, OnOk, bytes_eq, map, option_map};
ghost use Rattle.std.specs.List.{list_any};
ghost use Rattle.conf_text.specs.declared.directive.Directive.{Directive as Line};
ghost use Rattle.http_types.specs.declared.words.Addr.{Addr as End};
ghost use Rattle.conf_table.specs.Table.{entry_of};
ghost use Rattle.conf_block.specs.Listening.{address_by};
ghost use Rattle.conf_block.specs.declared.location.Kind.{Kind as Like};
ghost use Rattle.conf_check.specs.Keys.{key_by, in_front_key, same_key};
ghost use Rattle.conf_check.specs.LocationSet.{has_location};
ghost use Rattle.conf_block.specs.Roles.{role_of};
ghost use Rattle.conf_check.specs.Ends.{has_end};
ghost use Rattle.conf_check.specs.Before.{stands_once, with_name, Remembers};

use crate::ends::Ends;
use crate::locations::LocationSet;
use byte_text::OutOfMemory;
use conf_block::{Key, address_by, key_of, role_of};
use conf_table::{Role, entry};
use conf_text::Directive;
use http_types::Addr;
use std::alloc::Global;

/// What is known of the directives before one in its level: the names of those of which a level may have one alone, the
/// addresses that are listened on, and what the locations are found by.
#[derive(Drop)]
pub struct Before<'a> {
    pub names: Vec<&'a [u8]>,
    pub addrs: Ends,
    pub locations: LocationSet,
}

/// Whether a level may have one directive alone of this name.
fn stands_once(name: &[u8]) -> bool
    ensures { result ≡ stands_once (entry_of name.now) }
{
    match entry(name) {
        None => false,
        Some(rule) => !rule.many,
    }
}

/// Keeps the name if a level may have one of its directives alone.
fn add_name<'a>(names: &mut Vec<&'a [u8]>, name: &'a [u8]) -> Result<(), OutOfMemory>
    ensures { OnOk result (map (λ n. n.now) names.new.items
        ≡ with_name (stands_once (entry_of name.now)) (map (λ n. n.now) names.old.items) name.now) }
{
    if !stands_once(name) {
        return Ok(());
    }
    names.push(name)?;
    Ok(())
}

/// What a directive is found by, where it is a location.
fn key_by(role: Role, directive: &Directive) -> Option<Key<'_>>
    ensures { option_map (λ k. (k.kind, k.text.now)) result ≡ key_by role directive.now }
{
    match role {
        Role::Location => key_of(directive.args.as_slice()),
        _ => None,
    }
}

/// Keeps what a location is found by, if it is found so.
fn add_location(locations: &mut LocationSet, key: Option<Key<'_>>) -> Result<(), OutOfMemory>
    ensures { OnOk result ((kind : Like) (text : List ℕ) → has_location locations.new kind text
        ≡ (list_any (same_key kind text)
        (in_front_key (option_map (λ k. (k.kind, k.text.now)) key.entry) [])
        || has_location locations.old kind text)) }
{
    match key {
        None => Ok(()),
        Some(key) => locations.add(key.kind, key.text),
    }
}

impl<'a> Before<'a> {
    /// Nothing is before the first of a level. Takes no memory.
    pub fn new(alloc: Global) -> Self
        ensures names { result.names.items ≡ [] }
        ensures addrs { (q : End) → has_end result.addrs.keys q ≡ false }
        ensures locations { (kind : Like) (text : List ℕ) →
            has_location result.locations kind text ≡ false }
    {
        Before {
            names: Vec::new(alloc),
            addrs: Ends::new(alloc),
            locations: LocationSet::new(alloc),
        }
    }

    pub fn has_name(&self, name: &[u8]) -> bool
        ensures { result ≡ list_any (λ n. bytes_eq n name.now)
            (map (λ n. n.now) self.now.names.items) }
    {
        for kept in &self.names {
            if *kept == name {
                return true;
            }
        }
        false
    }

    pub fn has_addr(&self, addr: Addr) -> bool
        ensures { result ≡ has_end self.now.addrs.keys addr }
    {
        self.addrs.has(addr)
    }

    pub fn has_location(&self, key: Key<'_>) -> bool
        ensures { result ≡ has_location self.now.locations key.entry.kind key.entry.text.now }
    {
        self.locations.has(key.kind, key.text)
    }

    /// The directive is before the next.
    pub fn add(&mut self, directive: &'a Directive) -> Result<(), OutOfMemory>
        ensures { OnOk result ((earlier : List Line) →
            Remembers (map (λ n. n.now) self.old.names.items) self.old.addrs.keys
            self.old.locations earlier →
            Remembers (map (λ n. n.now) self.new.names.items) self.new.addrs.keys
            self.new.locations (earlier ++ directive.now ∷ [])) }
    {
        let name = directive.name.as_slice();
        let role = role_of(name);
        add_name(&mut self.names, name)?;
        self.addrs.add_any(address_by(role, directive))?;
        add_location(&mut self.locations, key_by(role, directive))?;
        Ok(())
    }
}
