// The nodes of a server's locations. They are made from the last location to the first: those that come after one and are
// deeper are in it, and are then all known.
ghost use Rattle.std.specs.Prelude.{◌≡◌, ℕ, ◌+◌, true, List, [], ◌∷◌, ◌++◌, length, Option, None, Some, IfOk, IfSome, IfNone, OnOk};
ghost use Rattle.location_search.specs.Lists.{is_exactly, is_prefix, is_firm as firm_of, text_of, pattern_of};
ghost use Rattle.location_search.specs.Nodes.{IsTreeOf};
ghost use Rattle.location_search.specs.Building.{listed, is_inside as inside_of, HasNoneInside, GathersAll, HasTexts, IsBuilt};
ghost use Rattle.pattern_search.specs.site_model.declared.site.Location.{Location as LocationRow};

use crate::node::{LocationList, Node, PatternLocation, Tree};
use byte_text::{ByteText, OutOfMemory};
use location_match::{NumberedText, Prefixes};
use pattern_search::site_model::{Location, LocationKind};
use std::alloc::Global;

/// A location that is in none of those that were seen, with its number.
#[derive(Clone, Copy)]
pub struct Open<'a> {
    pub number: u32,
    pub location: &'a Location,
}

/// The locations of a list, by how they are matched.
#[derive(Drop)]
pub struct Gathered {
    pub exact: Vec<NumberedText>,
    pub prefixes: Vec<NumberedText>,
    pub patterns: Vec<PatternLocation>,
}

fn is_firm(kind: LocationKind) -> bool
    ensures { result ≡ firm_of kind }
{
    match kind {
        LocationKind::FirmPrefix => true,
        LocationKind::Prefix => false,
        LocationKind::Exactly => false,
        LocationKind::Regex(_) => false,
    }
}

// Whether a location is in one of this depth, or in any list where there is none.
fn is_inside(location: &Location, depth: Option<u32>) -> bool
    ensures { result ≡ inside_of depth location.now }
{
    match depth {
        Some(depth) => depth < location.depth,
        None => true,
    }
}

fn numbered_text(alloc: Global, member: Open) -> Result<NumberedText, OutOfMemory>
    ensures { IfOk result (λ t. t
        ≡ record { text = member.entry.location.now.text; number = member.entry.number }) }
{
    let text = ByteText::from_slice(alloc, member.location.text.as_slice())?;
    Ok(NumberedText {
        text,
        number: member.number,
    })
}

impl Gathered {
    fn new(alloc: Global) -> Self
        ensures exact { result.exact.items ≡ [] }
        ensures prefixes { result.prefixes.items ≡ [] }
        ensures patterns { result.patterns.items ≡ [] }
    {
        Gathered {
            exact: Vec::new(alloc),
            prefixes: Vec::new(alloc),
            patterns: Vec::new(alloc),
        }
    }

    // One more location.
    fn add(&mut self, alloc: Global, member: Open) -> Result<(), OutOfMemory>
        ensures exact { OnOk result (self.new.exact.items
            ≡ self.old.exact.items ++ text_of is_exactly (listed member.entry)) }
        ensures prefixes { OnOk result (self.new.prefixes.items
            ≡ self.old.prefixes.items ++ text_of is_prefix (listed member.entry)) }
        ensures patterns { OnOk result (self.new.patterns.items
            ≡ self.old.patterns.items ++ pattern_of (listed member.entry)) }
    {
        match member.location.kind {
            LocationKind::Exactly => self.exact.push(numbered_text(alloc, member)?)?,
            LocationKind::Prefix => self.prefixes.push(numbered_text(alloc, member)?)?,
            LocationKind::FirmPrefix => self.prefixes.push(numbered_text(alloc, member)?)?,
            LocationKind::Regex(pattern) => self.patterns.push(PatternLocation {
                pattern,
                number: member.number,
            })?,
        }
        Ok(())
    }

    // The list of these locations.
    fn into_list(self, alloc: Global) -> Result<LocationList, OutOfMemory>
        ensures { IfOk result (λ l. HasTexts l self) }
    {
        let exact = Prefixes::of(alloc, self.exact)?;
        let prefixes = Prefixes::of(alloc, self.prefixes)?;
        Ok(LocationList {
            exact,
            prefixes,
            patterns: self.patterns,
        })
    }
}

// Takes the last of those that wait, where it is in a location of this depth.
fn take_inside<'a>(waiting: &mut Vec<Open<'a>>, depth: Option<u32>) -> Option<Open<'a>>
    ensures some { IfSome result (λ o. (waiting.old.items ≡ waiting.new.items ++ o ∷ [])
        × (inside_of depth (listed o).here ≡ true)) }
    ensures none { IfNone result (HasNoneInside depth waiting.old.items
        × (waiting.new.items ≡ waiting.old.items)) }
{
    let Some(last) = waiting.last() else {
        return None;
    };
    if !is_inside(last.location, depth) {
        return None;
    }
    waiting.pop()
}

// Takes those that are in a location of this depth, from the last, which is the first in the text, up to one that isn't.
fn gather<'a>(
    alloc: Global,
    waiting: &mut Vec<Open<'a>>,
    depth: Option<u32>,
) -> Result<Gathered, OutOfMemory>
    ensures { IfOk result (λ g. GathersAll g depth waiting.old.items waiting.new.items) }
{
    let mut gathered = Gathered::new(alloc);
    while let Some(last) = take_inside(waiting, depth) {
        gathered.add(alloc, last)?;
    }
    Ok(gathered)
}

// Adds the node of a location, with the list of those that are in it.
fn add_location<'a>(
    alloc: Global,
    nodes: &mut Vec<Node>,
    waiting: &mut Vec<Open<'a>>,
    location: &'a Location,
) -> Result<(), OutOfMemory>
    ensures { OnOk result ((later : List LocationRow)
        → IsBuilt nodes.old.items waiting.old.items later
        → IsBuilt nodes.new.items waiting.new.items (location.now ∷ later)) }
{
    let Ok(number) = u32::try_from(nodes.len()) else {
        return Err(OutOfMemory);
    };
    let list = gather(alloc, waiting, Some(location.depth))?.into_list(alloc)?;
    nodes.push(Node {
        level: location.level,
        firm: is_firm(location.kind),
        list,
    })?;
    waiting.push(Open { number, location })?;
    Ok(())
}

/// The nodes of a server's locations, each by the number of locations after it, and last the server's own.
pub(crate) fn tree_of(
    alloc: Global,
    level: u32,
    locations: &[Location],
) -> Result<Tree, OutOfMemory>
    ensures { IfOk result (λ tree. IsTreeOf tree locations.now) }
{
    let mut nodes = Vec::new(alloc);
    let mut waiting = Vec::new(alloc);
    let mut at = locations.len();
    while at > 0 {
        at -= 1;
        add_location(alloc, &mut nodes, &mut waiting, &locations[at])?;
    }
    let Ok(own) = u32::try_from(nodes.len()) else {
        return Err(OutOfMemory);
    };
    let list = gather(alloc, &mut waiting, None)?.into_list(alloc)?;
    nodes.push(Node {
        level,
        firm: false,
        list,
    })?;
    Ok(Tree { nodes, own })
}
