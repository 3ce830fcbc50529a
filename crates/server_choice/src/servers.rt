// The servers of a site, by the addresses that they listen on and by their names.
ghost use Rattle.std.specs.Prelude.{◌≡◌, ℕ, ◌+◌, true, ◌||◌, List, [], ◌∷◌, ◌++◌, drop, Option, None, Some, IfOk, OnOk, find, option_copied};
ghost use Rattle.http_types.specs.declared.words.Addr.{Addr as AddrRow};
ghost use Rattle.std.specs.List.{list_any};
ghost use Rattle.site_views.specs.Choice.{is_exactly as exactly, is_wildcard as wildcard};
ghost use Rattle.site_model.specs.declared.site.Server.{Server as ServerRow};
ghost use Rattle.server_choice.specs.Listening.{listens, first_from, HasMore, HasServer, AreNamesWith, AreNamesAt, AreEntriesOf, CoverAll, has_entry as entry_is, entry_of};

use crate::ServerNames;
use crate::address::{has_addr, is_default_at, is_exactly, is_wildcard};
use byte_text::OutOfMemory;
use http_types::Addr;
use ngx_pattern::PatternSet;
use site_model::{Server, ServerName, Site};
use std::alloc::Global;

/// An address, and the names of the servers that listen on it.
#[derive(Drop)]
pub struct Entry {
    pub addr: Addr,
    pub names: ServerNames,
}

/// The servers of a site. Contracts say of which site they are by `AreOf`.
#[derive(Drop)]
pub struct Servers {
    pub(crate) entries: Vec<Entry>,
}

// The number of the first server that listens on an address.
fn first_on(servers: &[Server], addr: Addr) -> Option<usize>
    ensures { result ≡ first_from (listens addr) 0 servers.now }
{
    for (number, server) in servers.iter().enumerate() {
        if has_addr(server.listens.as_slice(), addr) {
            return Some(number);
        }
    }
    None
}

// A text without its first byte.
fn without_first(text: &[u8]) -> &[u8]
    ensures { result.now ≡ drop 1 text.now }
{
    match text {
        [_, rest @ ..] => rest,
        [] => &[],
    }
}

// Gives a server one of its names.
fn add_name(names: &mut ServerNames, name: &ServerName, server: u32) -> Result<(), OutOfMemory>
    ensures { OnOk result (HasMore names.old names.new (name.now ∷ []) server) }
{
    match name {
        ServerName::Whole(host) => {
            names.add_host(host.as_slice(), server)?;
            Ok(())
        }
        ServerName::Ending(text) => {
            names.add_ending(text.as_slice(), server)?;
            Ok(())
        }
        ServerName::Beginning(text) => {
            names.add_beginning(text.as_slice(), server)?;
            Ok(())
        }
        ServerName::WithSubdomains(text) => {
            names.add_host(without_first(text.as_slice()), server)?;
            names.add_ending(text.as_slice(), server)?;
            Ok(())
        }
        ServerName::Like(pattern) => {
            names.add_like(*pattern, server)?;
            Ok(())
        }
    }
}

// Gives a server its names.
fn add_names(names: &mut ServerNames, own: &[ServerName], server: u32) -> Result<(), OutOfMemory>
    ensures { OnOk result (HasMore names.old names.new own.now server) }
{
    for name in own {
        add_name(names, name, server)?;
    }
    Ok(())
}

// Adds a server that listens on an address.
fn add_server(
    names: &mut ServerNames,
    addr: Addr,
    server: &Server,
    number: u32,
) -> Result<(), OutOfMemory>
    ensures { OnOk result (HasServer names.old names.new addr server.now number) }
{
    add_names(names, &server.names, number)?;
    if is_default_at(server, addr) {
        names.add_default(number);
    }
    Ok(())
}

// Adds a server by its place, if it listens on an address.
fn add_listening(
    names: &mut ServerNames,
    addr: Addr,
    server: &Server,
    place: usize,
) -> Result<(), OutOfMemory>
    ensures names { OnOk result ((rest servers : List ServerRow)
        → AreNamesWith names.old addr place (server.now ∷ rest) servers
        → AreNamesWith names.new addr (place + 1) rest servers) }
    ensures first { OnOk result (names.new.first ≡ names.old.first) }
{
    if !has_addr(server.listens.as_slice(), addr) {
        return Ok(());
    }
    let Ok(number) = u32::try_from(place) else {
        return Err(OutOfMemory);
    };
    add_server(names, addr, server, number)?;
    Ok(())
}

// The names of the servers that listen on an address, of which the first is known.
fn names_at(
    alloc: Global,
    servers: &[Server],
    addr: Addr,
    first: u32,
) -> Result<ServerNames, OutOfMemory>
    ensures names { IfOk result (λ n. AreNamesAt n addr servers.now) }
    ensures first { IfOk result (λ n. n.first ≡ first) }
{
    let mut names = ServerNames::new(alloc, first);
    for (place, server) in servers.iter().enumerate() {
        add_listening(&mut names, addr, server, place)?;
    }
    Ok(names)
}

// Whether an address has an entry.
fn has_entry(entries: &[Entry], local: Addr) -> bool
    ensures { result ≡ entry_is entries.now local }
{
    for entry in entries {
        if is_exactly(local, entry.addr) {
            return true;
        }
    }
    false
}

// Adds the entry of an address that a server listens on, unless it has one.
fn add_entry(
    alloc: Global,
    entries: &mut Vec<Entry>,
    servers: &[Server],
    addr: Addr,
) -> Result<(), OutOfMemory>
    ensures entries { OnOk result (AreEntriesOf entries.old.items servers.now
        → AreEntriesOf entries.new.items servers.now) }
    ensures there { OnOk result (list_any (listens addr) servers.now ≡ true
        → entry_is entries.new.items addr ≡ true) }
    ensures kept { OnOk result ((local : AddrRow) → entry_is entries.old.items local ≡ true
        → entry_is entries.new.items local ≡ true) }
{
    if has_entry(entries, addr) {
        return Ok(());
    }
    let Some(first) = first_on(servers, addr) else {
        return Ok(());
    };
    let Ok(first) = u32::try_from(first) else {
        return Err(OutOfMemory);
    };
    let names = names_at(alloc, servers, addr, first)?;
    entries.push(Entry { addr, names })?;
    Ok(())
}

// Adds the entries of the addresses that a server listens on.
fn add_entries(
    alloc: Global,
    entries: &mut Vec<Entry>,
    servers: &[Server],
    addrs: &[Addr],
) -> Result<(), OutOfMemory>
    ensures entries { OnOk result (AreEntriesOf entries.old.items servers.now
        → AreEntriesOf entries.new.items servers.now) }
    ensures cover { OnOk result ((local : AddrRow) → list_any (listens local) servers.now ≡ true
        → (entry_is entries.old.items local || list_any (exactly local) addrs.now) ≡ true
        → entry_is entries.new.items local ≡ true) }
{
    for addr in addrs {
        add_entry(alloc, entries, servers, *addr)?;
    }
    Ok(())
}

// The entries of the addresses that these servers listen on.
fn entries_of(alloc: Global, servers: &[Server]) -> Result<Vec<Entry>, OutOfMemory>
    ensures entries { IfOk result (λ es. AreEntriesOf es.items servers.now) }
    ensures cover { IfOk result (λ es. CoverAll es.items servers.now) }
{
    let mut entries = Vec::new(alloc);
    for server in servers {
        add_entries(alloc, &mut entries, servers, server.listens.as_slice())?;
    }
    Ok(entries)
}

// The entry of a local end: that of the very address.
fn entry_on(entries: &[Entry], local: Addr) -> Option<&Entry>
    ensures { option_copied result ≡ find (λ e. exactly local e.addr) entries.now }
{
    for entry in entries {
        if is_exactly(local, entry.addr) {
            return Some(entry);
        }
    }
    None
}

// The entry of the wildcard of a local end.
fn entry_on_all(entries: &[Entry], local: Addr) -> Option<&Entry>
    ensures { option_copied result ≡ find (λ e. wildcard local e.addr) entries.now }
{
    for entry in entries {
        if is_wildcard(local, entry.addr) {
            return Some(entry);
        }
    }
    None
}

// The entry of a local end: that of the very address, or else of its wildcard.
#[inline(always)]
fn entry_for(entries: &[Entry], local: Addr) -> Option<&Entry>
    ensures { option_copied result ≡ entry_of entries.now local }
{
    match entry_on(entries, local) {
        Some(entry) => Some(entry),
        None => entry_on_all(entries, local),
    }
}

impl Servers {
    ghost use Rattle.site_views.specs.Choice.{server_of, default_server};
    ghost use Rattle.ngx_pattern.specs.Pattern.{Pattern as SetPattern};
    ghost use Rattle.site_whole.specs.Whole.{whole};
    ghost use Rattle.site_model.specs.declared.site.Site.{Site as SiteRow};
    ghost use Rattle.pattern_search.specs.Found.{found, patterns_seen};
    ghost use Rattle.server_choice.specs.Listening.{AreOf, server_at};

    /// The servers of a site.
    pub fn new(alloc: Global, site: &Site) -> Result<Self, OutOfMemory>
        ensures { IfOk result (λ s. AreOf s site.now) }
    {
        let entries = entries_of(alloc, &site.servers)?;
        Ok(Servers { entries })
    }

    /// The number of the server, in the order of the text, that answers a host on connections to a local end; none where no
    /// server listens there. The host is in lower case and without its port. It takes no memory.
    ///
    /// It is one of the servers that listen on that very address, or else on the wildcard of its port. Of these it is
    /// the one with that name; else the one with the longest name `*.x`; else the one with the longest name `x.*`; else
    /// the one of the first pattern that matches; else the default server; else the first
    /// (<https://nginx.org/en/docs/http/server_names.html>).
    pub fn choose(&self, local: Addr, host: &[u8], patterns: &mut PatternSet) -> Option<u32>
        ensures chosen { (site : SiteRow) → AreOf self.now site
            → server_at (whole (patterns_seen patterns.old) site) result
            ≡ server_of found (whole (patterns_seen patterns.old) site).servers local host.now }
        ensures kept { patterns.new ≡ patterns.old }
    {
        match entry_for(&self.entries, local) {
            Some(entry) => Some(entry.names.choose(host, patterns)),
            None => None,
        }
    }

    /// The number of the server of a local end where no host is known: the default server, or the first.
    pub fn default_at(&self, local: Addr) -> Option<u32>
        ensures { (patterns : List SetPattern) → (site : SiteRow) → AreOf self.now site
            → server_at (whole (patterns_seen patterns) site) result
            ≡ default_server (whole (patterns_seen patterns) site).servers local }
    {
        match entry_for(&self.entries, local) {
            Some(entry) => Some(entry.names.default.unwrap_or(entry.names.first)),
            None => None,
        }
    }
}
