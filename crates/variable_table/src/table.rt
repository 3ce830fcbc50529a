// The table of the variables that a configuration sets.
ghost use Rattle.std.specs.Prelude.{◌≡◌, ℕ, ◌+◌, ◌-◌, ◌<◌, ◌≤◌, List, [], ◌∷◌, length, take, IfOk, OnOk, OnErr, option_map, position, bytes_eq};
ghost use Rattle.acts.specs.Vars.{look, set};
ghost use Rattle.variable_table.specs.Stored.{stored_bytes};

use crate::stored::Stored;
use byte_text::OutOfMemory;
use std::alloc::Global;
use std::marker::Model;

/// A variable that was set, with its value. Contracts see the two.
#[derive(Drop)]
pub struct Setting {
    name: Stored,
    value: Stored,
}

impl Model for Setting {
    ghost use Rattle.std.specs.Prelude.{ℕ, List};
    ghost use Rattle.variable_table.specs.Stored.{stored_bytes};

    ghost Value = { List ℕ × List ℕ };

    ghost view = { λ s. (stored_bytes s.name, stored_bytes s.value) };
}

impl Setting {
    fn new(alloc: Global, name: &[u8], value: &[u8]) -> Result<Setting, OutOfMemory>
        ensures { IfOk result (λ setting. setting ≡ (name.now, value.now)) }
    {
        let name = Stored::new(alloc, name)?;
        let value = Stored::new(alloc, value)?;
        Ok(Setting { name, value })
    }

    fn name(&self) -> &[u8]
        ensures { result.now ≡ self.now.0 }
    {
        self.name.as_slice()
    }

    fn value(&self) -> &[u8]
        ensures { result.now ≡ self.now.1 }
    {
        self.value.as_slice()
    }

    /// Gives the variable another value.
    fn put(&mut self, value: Stored)
        ensures { self.new ≡ (self.old.0, stored_bytes value) }
    {
        self.value = value;
    }
}

/// The room that a table takes at first: few configurations need more.
const FIRST_VARIABLES: usize = 8;

/// The variables that `set` and `auth_request_set` give values to: one table for a main request and all its
/// subrequests. Contracts see it as the list of the names with their values, in the order in which they were first set.
///
/// Names are bytes in lower case. A name that is set again takes its new value in its old place, so the table is never
/// longer than the number of names.
///
/// Short names and values are stored in the entries, so that one call of the allocator serves most tables.
#[derive(Drop)]
pub struct VarTable {
    alloc: Global,
    settings: Vec<Setting>,
}

impl Model for VarTable {
    ghost use Rattle.acts.specs.Vars.{Vars};

    ghost Value = { Vars };

    ghost view = { λ t. t.settings.items };
}

impl VarTable {
    /// The table in which nothing was set, which takes no memory.
    pub fn new(alloc: Global) -> Self
        ensures { result ≡ [] }
    {
        VarTable {
            alloc,
            settings: Vec::new(alloc),
        }
    }

    /// Gives a variable a value, in place of the one that it may have.
    pub fn put(&mut self, name: &[u8], value: &[u8]) -> Result<(), OutOfMemory>
        ensures ok { OnOk result (self.new ≡ set name.now value.now self.old) }
        ensures err { OnErr result (self.new ≡ self.old) }
    {
        match position_of(self.settings.as_slice(), name) {
            Some(at) => {
                let value = Stored::new(self.alloc, value)?;
                self.settings[at].put(value);
            }
            None => {
                make_room(&mut self.settings)?;
                let setting = Setting::new(self.alloc, name, value)?;
                self.settings.push(setting)?;
            }
        }
        Ok(())
    }

    /// The value of a variable, if it was set.
    #[tactic(auto, unfolding(acts::specs::Vars::look))]
    pub fn get(&self, name: &[u8]) -> Option<&[u8]>
        ensures { option_map (λ value. value.now) result ≡ look self.now name.now }
    {
        for setting in &self.settings {
            if setting.name() == name {
                return Some(setting.value());
            }
        }
        None
    }

    /// Forgets all variables, and keeps the table's memory for the next.
    pub fn clear(&mut self)
        ensures { self.new ≡ [] }
    {
        self.settings.clear();
    }
}

/// Where a name is in the table.
fn position_of(settings: &[Setting], name: &[u8]) -> Option<usize>
    ensures { result ≡ position (λ s. bytes_eq s.0 name.now) settings.now }
{
    settings.iter().position(|setting| setting.name() == name)
}

/// Makes room for the first variables.
fn make_room(settings: &mut Vec<Setting>) -> Result<(), OutOfMemory>
    ensures { settings.new.items ≡ settings.old.items }
{
    if settings.is_empty() {
        settings.reserve(FIRST_VARIABLES)?;
    }
    Ok(())
}
