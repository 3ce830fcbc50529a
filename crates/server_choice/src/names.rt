// Numbers of servers by the texts of their names.
ghost use Rattle.std.specs.Prelude.{◌≡◌, ◌<◌, ◌≤◌, ℕ, List, Some, None, OnOk, OnErr, false, is_some, bytes_eq, length, if◌then◌else◌};
ghost use Rattle.std.specs.HashMap.{get_by};
ghost use Rattle.site_views.specs.Choice.{or_else};

use byte_text::OutOfMemory;
use std::alloc::Global;
use std::collections::HashMap;

/// Numbers by texts. Contracts see it by `number_of`.
#[derive(Drop)]
pub struct NameMap {
    pub(crate) numbers: HashMap<Vec<u8>, u32>,
    /// No text that has a number has more bytes.
    longest: usize,
    alloc: Global,
    ghost short: { (text : List ℕ) → longest < length text
        → get_by (λ key. bytes_eq text key.items) numbers ≡ None },
}

/// Gives a text that has none a number.
fn put_number(
    numbers: &mut HashMap<Vec<u8>, u32>,
    key: Vec<u8>,
    number: u32,
) -> Result<(), OutOfMemory>
    requires { is_some (get_by (λ k. bytes_eq key.items k.items) numbers.old) ≡ false }
    ensures ok { OnOk result ((text : List ℕ) → get_by (λ k. bytes_eq text k.items) numbers.new
        ≡ or_else (get_by (λ k. bytes_eq text k.items) numbers.old)
        (if bytes_eq key.items text then Some number else None)) }
    ensures err { OnErr result ((text : List ℕ) → get_by (λ k. bytes_eq text k.items) numbers.new
        ≡ get_by (λ k. bytes_eq text k.items) numbers.old) }
    ensures short { (most : ℕ) → length key.items ≤ most
        → ((text : List ℕ) → most < length text
        → get_by (λ k. bytes_eq text k.items) numbers.old ≡ None)
        → (text : List ℕ) → most < length text
        → get_by (λ k. bytes_eq text k.items) numbers.new ≡ None }
{
    numbers.insert(key, number)?;
    Ok(())
}

impl NameMap {
    ghost use Rattle.std.specs.Prelude.{◌≡◌, ℕ, List, None, OnOk, OnErr, true};
    ghost use Rattle.server_choice.specs.Names.{number_of, GetsNumber, HasSameNumbers};

    /// No text has a number, which takes no memory.
    pub fn new(alloc: Global) -> Self
        ensures { (text : List ℕ) → number_of result text ≡ None }
    {
        NameMap {
            numbers: HashMap::new(alloc),
            longest: 0,
            alloc,
        }
    }

    /// Whether no text has a number.
    #[inline(always)]
    pub fn is_empty(&self) -> bool
        ensures { result ≡ true → (text : List ℕ) → number_of self.now text ≡ None }
    {
        self.numbers.is_empty()
    }

    /// The number of a text, if it has one.
    pub fn get(&self, text: &[u8]) -> Option<u32>
        ensures { result ≡ number_of self.now text.now }
    {
        if text.len() > self.longest {
            return None;
        }
        self.numbers.get(text).copied()
    }

    /// Gives a text a number, unless it has one.
    pub fn add(&mut self, text: &[u8], number: u32) -> Result<(), OutOfMemory>
        ensures ok { OnOk result (GetsNumber self.old self.new text.now number) }
        ensures err { OnErr result (HasSameNumbers self.old self.new) }
    {
        if self.numbers.contains_key(text) {
            return Ok(());
        }
        let key = text.to_vec(self.alloc)?;
        self.longest = self.longest.max(text.len());
        put_number(&mut self.numbers, key, number)?;
        Ok(())
    }
}
