// The variables that the race check names.
ghost use Rattle.std.specs.Prelude.{◌≡◌, ◌||◌, ◌&&◌, ℕ, ◌++◌, List, [], map, filter, bytes_eq, OnOk, IfOk};
ghost use Rattle.std.specs.List.{list_any};
ghost use Rattle.race_meaning.specs.request_meaning.Documents.{is_visible};
ghost use Rattle.site_views.specs.Pattern.{Pattern};
ghost use Rattle.site_whole.specs.Whole.{server_whole};
ghost use Rattle.race_check.specs.declared.first.FirstLists.{FirstLists as FirstNames};
ghost use Rattle.race_check.specs.Names.{has as has_name};
ghost use Rattle.race_check.specs.Numbers.{level_numbers, value_numbers};
ghost use Rattle.race_check.specs.Told.{has_or_all, in_first, is_set_by_auth, is_exposed, has_one_value, is_marked, marked, AllSet, AreFirst, AreMarks, HasNamed};

use crate::first::FirstLists;
use crate::levels::{has_documents, has_open, level_numbers, value_numbers};
use crate::listed::{LevelLists, lists_in};
use crate::marks::{add_exposed, first_sets, read_by_values, set_by_auth, set_texts};
use crate::names::NameSet;
use crate::texts::SetTexts;
use byte_text::{ByteText, ByteTexts, OutOfMemory};
use site_model::{Server, Site};
use std::alloc::Global;

/// A variable that is named: the place of its server among the site's, from 1 on; its name without the `$`; and whether
/// documents read it.
#[derive(Drop)]
pub struct Named {
    pub server: usize,
    pub name: ByteText,
    pub documents: bool,
}

/// What decides of each variable whether it is named: the texts that it is given, whether a subrequest for access sets
/// it, whether the server's program begins with its `set`, and whether it is read where others could have set it. Also
/// whether there are documents, and which variables they see: all without a list. What the first lists of the site read
/// and set isn't in `exposed` and `auth`: `lists` say whether they hold.
#[derive(Drop)]
pub struct Marks {
    pub lists: LevelLists,
    pub texts: SetTexts,
    pub auth: NameSet,
    pub opening: NameSet,
    pub exposed: NameSet,
    pub documents: bool,
    pub visible: Option<NameSet>,
}

fn names_in(alloc: Global, texts: &[ByteText]) -> Result<NameSet, OutOfMemory>
    ensures { IfOk result (λ names. (name : List ℕ)
        → has_name names name ≡ list_any (bytes_eq name) texts.now) }
{
    let mut names = NameSet::new(alloc);
    for text in texts {
        names.add(text.as_slice())?;
    }
    Ok(names)
}

fn visible_names(alloc: Global, visible: &Option<ByteTexts>) -> Result<Option<NameSet>, OutOfMemory>
    ensures { IfOk result (λ names. (name : List ℕ)
        → has_or_all names name ≡ is_visible visible.now name) }
{
    match visible {
        Some(texts) => {
            let names = names_in(alloc, texts.as_slice())?;
            Ok(Some(names))
        }
        None => Ok(None),
    }
}

/// What decides in a server with these levels.
fn marks_of(
    alloc: Global,
    site: &Site,
    server: &Server,
    levels: &[u32],
    values: &[u32],
) -> Result<Marks, OutOfMemory>
    requires levels { levels.now ≡ level_numbers server.now }
    requires values { values.now ≡ value_numbers site.now levels.now }
    ensures { IfOk result (λ marks. (patterns : List Pattern) (first : FirstNames)
        → AreFirst site.now first
        → AreMarks first (server_whole patterns site.now server.now) marks) }
{
    let lists = lists_in(alloc, site, values)?;
    let mut exposed = read_by_values(alloc, site, values, &lists)?;
    add_exposed(&mut exposed, alloc, site, levels)?;
    let texts = set_texts(alloc, site, levels)?;
    let auth = set_by_auth(alloc, site, lists.auth_sets.others.as_slice())?;
    let opening = first_sets(alloc, site.level(server.level))?;
    let documents = has_documents(site, values);
    let visible = visible_names(alloc, &server.visible)?;
    Ok(Marks {
        lists,
        texts,
        auth,
        opening,
        exposed,
        documents,
        visible,
    })
}

impl Marks {
    /// Whether documents may read a variable.
    fn is_shown(&self, name: &[u8]) -> bool
        ensures { result
            ≡ (self.now.documents && has_or_all self.now.visible name.now) }
    {
        if !self.documents {
            return false;
        }
        match &self.visible {
            Some(names) => names.has(name),
            None => true,
        }
    }

    /// Whether one of the first lists that hold reads a variable.
    fn is_in_first(&self, first: &FirstLists, name: &[u8]) -> bool
        ensures { result ≡ in_first first.now self.now.lists name.now }
    {
        (self.lists.index.has_first && first.index.has(name))
            || (self.lists.pages.has_first && first.pages.has(name))
            || (self.lists.auth_sets.has_first && first.auth_sets.has(name))
    }

    /// Whether a variable is read where others could have set it.
    fn is_exposed(&self, first: &FirstLists, name: &[u8]) -> bool
        ensures { result ≡ is_exposed first.now self.now name.now }
    {
        self.exposed.has(name) || self.is_in_first(first, name)
    }

    /// Whether a subrequest for access sets a variable.
    fn is_set_by_auth(&self, first: &FirstLists, name: &[u8]) -> bool
        ensures { result ≡ is_set_by_auth first.now self.now name.now }
    {
        self.auth.has(name) || (self.lists.auth_sets.has_first && first.sets.has(name))
    }

    /// Whether a variable has one value for each main request, which its server's program sets first of all.
    fn is_fixed(&self, first: &FirstLists, name: &[u8]) -> bool
        ensures { result ≡ has_one_value first.now self.now name.now }
    {
        !self.is_set_by_auth(first, name) && self.texts.is_one(name) && self.opening.has(name)
    }

    /// Whether a variable that is set in an open server is named.
    fn is_named(&self, first: &FirstLists, name: &[u8]) -> bool
        ensures { result ≡ is_marked first.now self.now name.now }
    {
        !self.is_fixed(first, name) && (self.is_shown(name) || self.is_exposed(first, name))
    }

    /// Adds the variables that are named in a server, with its number.
    fn push_named(
        &self,
        named: &mut Vec<Named>,
        alloc: Global,
        first: &FirstLists,
        number: usize,
    ) -> Result<(), OutOfMemory>
        ensures { OnOk result ((names : List (List ℕ)) × AllSet self.now.texts names
            × (named.new.items ≡ named.old.items
            ++ map (marked number self.now) (filter (is_marked first.now self.now) names))) }
    {
        let names = self.texts.names()?;
        for name in &names {
            if self.is_named(first, name.as_slice()) {
                named.push(Named {
                    server: number,
                    name: ByteText::from_slice(alloc, name.as_slice())?,
                    documents: self.is_shown(name.as_slice()),
                })?;
            }
        }
        Ok(())
    }
}

/// Adds the variables of a server that are named.
fn push_server(
    named: &mut Vec<Named>,
    alloc: Global,
    site: &Site,
    first: &FirstLists,
    server: &Server,
    number: usize,
) -> Result<(), OutOfMemory>
    requires { AreFirst site.now first.now }
    ensures { OnOk result ((patterns : List Pattern)
        → HasNamed number (server_whole patterns site.now server.now)
        named.old.items named.new.items) }
{
    let levels = level_numbers(alloc, server)?;
    let values = value_numbers(alloc, site, levels.as_slice())?;
    if !has_open(site, values.as_slice()) {
        return Ok(());
    }
    let marks = marks_of(alloc, site, server, levels.as_slice(), values.as_slice())?;
    marks.push_named(named, alloc, first, number)?;
    Ok(())
}

/// The variables of a server that are named, each once, in the order of their bytes. The first lists of the site are looked at
/// by what was noted of them, and any other list that holds in the server is gone through once.
pub fn named_in(
    alloc: Global,
    site: &Site,
    first: &FirstLists,
    server: &Server,
    number: usize,
) -> Result<Vec<Named>, OutOfMemory>
    requires { AreFirst site.now first.now }
    ensures { IfOk result (λ named. (patterns : List Pattern)
        → HasNamed number (server_whole patterns site.now server.now) [] named.items) }
{
    let mut named = Vec::new(alloc);
    push_server(&mut named, alloc, site, first, server, number)?;
    Ok(named)
}
