// The locations of a server.
ghost use Rattle.std.specs.Prelude.{◌≡◌, ℕ, List, Option, true, option_map, IfOk, IfSome};
ghost use Rattle.pattern_search.specs.site_model.declared.site.Server.{Server as ServerRow};
ghost use Rattle.pattern_search.specs.site_model.declared.site.NamedLocation.{NamedLocation as NamedRow};
ghost use Rattle.pattern_search.specs.site_model.declared.site.Site.{Site as SiteRow};
ghost use Rattle.location_match.specs.Numbers.{LeadsAs};
ghost use Rattle.location_search.specs.Names.{level_named};
ghost use Rattle.location_search.specs.Found.{found_of as found_in_sought};
ghost use Rattle.pattern_search.specs.site_views.Pattern.{Pattern as PatternView};

use crate::build::tree_of;
use crate::node::Tree;
use crate::search::{FoundLocation, Sought, seek};
use byte_text::{ByteText, OutOfMemory};
use location_match::{NumberedText, Prefixes};
use ngx_pattern::{PatternSet, Spans};
use pattern_search::site_model::{NamedLocation, Server};
use std::alloc::Global;

/// The locations of a server, as they are searched. Contracts say of which server they are by `AreOf`.
#[derive(Drop)]
pub struct Locations {
    pub(crate) tree: Tree,
    /// The names of locations `@name`, which lead to the numbers of their levels.
    pub(crate) named: Prefixes,
}

// What a search found: where it ended, or else what is remembered.
fn found_of(sought: Sought) -> Option<FoundLocation>
    ensures { result ≡ found_in_sought sought }
{
    match sought {
        Sought::Ends(found) => Some(found),
        Sought::Remembers(Some(level)) => Some(FoundLocation {
            level,
            matched: false,
        }),
        Sought::Remembers(None) => None,
    }
}

// The levels of locations by their names.
fn names_of(alloc: Global, locations: &[NamedLocation]) -> Result<Prefixes, OutOfMemory>
    ensures { IfOk result (λ p. LeadsAs p (level_named locations.now)) }
{
    let mut names = Vec::new(alloc);
    for location in locations {
        let text = ByteText::from_slice(alloc, location.name.as_slice())?;
        names.push(NumberedText {
            text,
            number: location.level,
        })?;
    }
    let names = Prefixes::of(alloc, names)?;
    Ok(names)
}

impl Locations {
    ghost use Rattle.pattern_search.specs.site_views.Search.{search, named as named_in};
    ghost use Rattle.pattern_search.specs.Found.{patterns_seen, found as found_in};
    ghost use Rattle.pattern_search.specs.site_whole.Whole.{level_whole, server_whole};
    ghost use Rattle.location_search.specs.Found.{AreSpans, found_seen};
    ghost use Rattle.location_search.specs.Served.{AreOf};

    /// The locations of a server.
    pub fn new(alloc: Global, server: &Server) -> Result<Self, OutOfMemory>
        ensures { IfOk result (λ l. AreOf l server.now) }
    {
        let tree = tree_of(alloc, server.level, &server.locations)?;
        let named = names_of(alloc, &server.named)?;
        Ok(Locations { tree, named })
    }

    /// The location that holds for a path, and none where the server's own level does. Where a regular expression matched,
    /// the spans of its groups are left, which lie within the path. It takes no memory.
    #[inline(always)]
    pub fn find(
        &self,
        path: &[u8],
        patterns: &mut PatternSet,
        spans: &mut Spans,
    ) -> Option<FoundLocation>
        ensures found { (server : ServerRow) → AreOf self.now server → (site : SiteRow)
            → option_map (found_seen (patterns_seen patterns.old) site path.now spans.new) result
            ≡ search found_in (server_whole (patterns_seen patterns.old) site server).locations
            path.now }
        ensures sound { IfSome result (λ f. f.matched ≡ true → AreSpans path.now spans.new) }
        ensures kept { patterns.new ≡ patterns.old }
    {
        let Tree { nodes, own } = &self.tree;
        found_of(seek(nodes, Some(*own), path, patterns, spans))
    }

    /// The number of the level of the location `@name`.
    pub fn named(&self, name: &[u8]) -> Option<u32>
        ensures { (server : ServerRow) → AreOf self.now server → (site : SiteRow)
            → (patterns : List PatternView)
            → option_map (level_whole patterns site) result
            ≡ named_in (server_whole patterns site server) name.now }
    {
        self.named.number(name)
    }
}
