// Types by extension.
ghost use Rattle.std.specs.Prelude.{◌≡◌, ℕ, ◌<◌, ◌≤◌, List, [], ◌∷◌, ◌++◌, length, replicate, All, if◌then◌else◌, IfOk, OnOk};
ghost use Rattle.std.specs.Str.{str_eq_ignore_ascii_case};
ghost use Rattle.file_type.specs.Types.{type_among, type_of};
ghost use Rattle.file_type.specs.Buckets.{bucket_of, entries_at, Puts, AreBuckets};

use crate::extension;
use byte_text::{ByteText, OutOfMemory};
use std::alloc::Global;
use std::marker::Model;
use std::rc::Rc;

/// The type of the files with an extension.
#[derive(Drop)]
pub struct TypeEntry {
    pub extension: ByteText,
    pub media_type: ByteText,
}

/// Types by extension, and the type of any other file. Contracts see them as the list of entries as it was given. Types that
/// differ in the type of any other file alone share their entries.
#[derive(Drop)]
pub struct Types {
    table: Rc<Table>,
    default_type: ByteText,
}

impl Model for Types {
    ghost use Rattle.file_type.specs.Types.{TypeList};

    ghost Value = { TypeList };

    ghost view = { λ t. record { entries = t.table.value; default_type = t.default_type } };
}

/// Entries in the order in which they were given. Their places are in buckets too, by a hash of the extension, so that a
/// look-up reads few of them.
#[derive(Drop)]
struct Table {
    entries: Vec<TypeEntry>,
    buckets: Vec<Bucket>,
}

impl Model for Table {
    ghost use Rattle.std.specs.Prelude.{List};
    ghost use Rattle.file_type.specs.declared.types.TypeEntry.{TypeEntry};
    ghost use Rattle.file_type.specs.Buckets.{AreBuckets};

    ghost Value = { List TypeEntry };

    ghost view = { λ t. t.entries.items };

    ghost invariant = { λ t. AreBuckets t.buckets.items t.entries.items };
}

/// The places of some entries, in rising order.
#[derive(Drop)]
struct Bucket {
    places: Vec<usize>,
}

impl Model for Bucket {
    ghost Value = { List ℕ };

    ghost view = { λ b. b.places.items };
}

impl Bucket {
    fn push(&mut self, place: usize) -> Result<(), OutOfMemory>
        ensures { OnOk result (self.new ≡ self.old ++ place ∷ []) }
    {
        self.places.push(place)?;
        Ok(())
    }

    fn as_slice(&self) -> &[usize]
        ensures { result.now ≡ self.now }
    {
        self.places.as_slice()
    }
}

/// The bucket of an extension, of `count` buckets.
fn bucket_of(extension: &[u8], count: usize) -> usize
    requires { 0 < count }
    ensures value { result ≡ bucket_of extension.now count }
    ensures within { result < count }
{
    let mut hash = 0u32;
    for byte in extension {
        hash = hash
            .wrapping_mul(31)
            .wrapping_add(byte.to_ascii_lowercase() as u32);
    }
    hash as usize % count
}

fn empty_buckets(alloc: Global, count: usize) -> Result<Vec<Bucket>, OutOfMemory>
    ensures { IfOk result (λ buckets. buckets.items ≡ replicate count []) }
{
    let mut buckets = Vec::new(alloc);
    for _made in 0..count {
        buckets.push(Bucket {
            places: Vec::new(alloc),
        })?;
    }
    Ok(buckets)
}

/// Puts the place of an entry into the bucket of its extension.
fn put(buckets: &mut Vec<Bucket>, extension: &[u8], place: usize) -> Result<(), OutOfMemory>
    requires { 0 < length buckets.old.items }
    ensures { OnOk result (Puts buckets.old.items buckets.new.items extension.now place) }
{
    let bucket = bucket_of(extension, buckets.len());
    buckets[bucket].push(place)?;
    Ok(())
}

fn buckets_of(alloc: Global, entries: &[TypeEntry]) -> Result<Vec<Bucket>, OutOfMemory>
    ensures { IfOk result (λ buckets. AreBuckets buckets.items entries.now) }
{
    let mut buckets = empty_buckets(alloc, entries.len().max(1))?;
    for (place, entry) in entries.iter().enumerate() {
        put(&mut buckets, entry.extension.as_slice(), place)?;
    }
    Ok(buckets)
}

/// The type of an entry, where it has this extension.
fn type_at<'t>(entry: &'t TypeEntry, before: &'t [u8], wanted: &[u8]) -> &'t [u8]
    ensures { result.now ≡ (if str_eq_ignore_ascii_case entry.now.extension wanted.now
        then entry.now.media_type else before.now) }
{
    if entry.extension.as_slice().eq_ignore_ascii_case(wanted) {
        entry.media_type.as_slice()
    } else {
        before
    }
}

/// The type of the last entry at these places that has this extension.
fn type_among<'t>(
    entries: &'t [TypeEntry],
    places: &[usize],
    before: &'t [u8],
    wanted: &[u8],
) -> &'t [u8]
    requires { All (λ place. place < length entries.now) places.now }
    ensures { result.now ≡ type_among before.now (entries_at places.now entries.now) wanted.now }
{
    let mut found = before;
    for place in places {
        found = type_at(&entries[*place], found, wanted);
    }
    found
}

impl Table {
    fn new(alloc: Global, entries: Vec<TypeEntry>) -> Result<Table, OutOfMemory>
        ensures { IfOk result (λ table. table ≡ entries.items) }
    {
        let buckets = buckets_of(alloc, entries.as_slice())?;
        Ok(Table { entries, buckets })
    }

    /// The type of the last entry with this extension, or else the one that was there before.
    fn find<'t>(&'t self, before: &'t [u8], wanted: &[u8]) -> &'t [u8]
        ensures { result.now ≡ type_among before.now self.now wanted.now }
    {
        let bucket = bucket_of(wanted, self.buckets.len());
        type_among(
            self.entries.as_slice(),
            self.buckets[bucket].as_slice(),
            before,
            wanted,
        )
    }
}

/// The same entries once more, without a copy of them.
fn again(table: &Rc<Table>) -> Result<Rc<Table>, OutOfMemory>
    ensures { IfOk result (λ other. other.value ≡ table.now.value) }
{
    let other = table.clone()?;
    Ok(other)
}

impl Types {
    /// Types from a list of entries, of which the last holds where several have one extension.
    pub fn new(
        alloc: Global,
        entries: Vec<TypeEntry>,
        default_type: ByteText,
    ) -> Result<Types, OutOfMemory>
        ensures { IfOk result (λ types. types
            ≡ record { entries = entries.items; default_type = default_type }) }
    {
        let table = Rc::new(alloc, Table::new(alloc, entries)?)?;
        Ok(Types {
            table,
            default_type,
        })
    }

    /// The same entries, with another type of any other file. The entries aren't copied.
    pub fn with_default(&self, default_type: ByteText) -> Result<Types, OutOfMemory>
        ensures { IfOk result (λ types. types
            ≡ record { entries = self.now.entries; default_type = default_type }) }
    {
        Ok(Types {
            table: again(&self.table)?,
            default_type,
        })
    }

    fn by_extension(&self, wanted: &[u8]) -> &[u8]
        ensures { result.now ≡ type_among self.now.default_type self.now.entries wanted.now }
    {
        self.table
            .as_ref()
            .find(self.default_type.as_slice(), wanted)
    }

    /// The type of the file with this path: that of its extension, which is compared without regard to ASCII case, or
    /// the default type where it has no extension or no entry has it.
    #[inline(always)]
    pub fn type_of(&self, path: &[u8]) -> &[u8]
        ensures { result.now ≡ type_of self.now path.now }
    {
        match extension(path) {
            Some(wanted) => self.by_extension(wanted),
            None => self.default_type.as_slice(),
        }
    }
}
