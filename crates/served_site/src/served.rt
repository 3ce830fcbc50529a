// A site with what finds its servers and locations.
ghost use Rattle.std.specs.Prelude.{◌≡◌, map, IfOk};
ghost use Rattle.std.specs.List.{AllZip};
ghost use Rattle.location_search.specs.Served.{AreOf};
ghost use Rattle.std.proofs.Props.{props};
ghost use Rattle.site_whole.specs.Whole.{index_seen, default_index as index_html};
ghost use Rattle.server_choice.specs.Listening.{AreOf as AreOfSite};
ghost use Rattle.served_site.specs.Each.{AreOfEach};
ghost use Rattle.served_site.specs.Facts.{servers_prop, each_prop};

use byte_text::{ByteText, OutOfMemory};
use http_types::Addr;
use location_search::Locations;
use ngx_pattern::PatternSet;
use request_phases::Ground;
use request_phases::try_index::default_index;
use server_choice::Servers;
use site_model::{IndexName, Listens, Server, Site};
use std::alloc::Global;

/// A site as it is served. A number that no server has is that of a server that listens nowhere. `raceless` says that the race
/// check named no variable of it.
#[derive(Drop)]
pub struct ServedSite {
    site: Site,
    raceless: bool,
    servers: Servers,
    locations: Vec<Locations>,
    index: Vec<IndexName>,
    spare: Server,
    spare_locations: Locations,
    ghost chosen: { AreOfSite servers site } by { Prim.hlevel (servers_prop, props) },
    ghost located: { AreOfEach locations.items spare_locations site.servers.items spare } by { Prim.hlevel (each_prop, props) },
    ghost indexed: { map index_seen index.items ≡ index_html },
}

/// A server that listens nowhere, and answers for the level with this number.
fn nowhere(alloc: Global) -> Server {
    Server {
        listens: Listens::new(alloc),
        level: 0,
        locations: Vec::new(alloc),
        defaults: Listens::new(alloc),
        names: Vec::new(alloc),
        first_name: ByteText::new(alloc),
        named: Vec::new(alloc),
        merge: true,
        visible: None,
    }
}

/// The locations of each server.
fn locations_of(alloc: Global, servers: &[Server]) -> Result<Vec<Locations>, OutOfMemory>
    ensures { IfOk result (λ all. AllZip AreOf all.items servers.now) }
{
    let mut all = Vec::new(alloc);
    for server in servers {
        all.push(Locations::new(alloc, server)?)?;
    }
    Ok(all)
}

impl ServedSite {
    ghost use Rattle.std.specs.Prelude.{◌≡◌, ◌<◌, ℕ, List, None, IfOk, IfSome, length, option_map};
    ghost use Rattle.ngx_pattern.specs.Pattern.{Pattern as SetPattern};
    ghost use Rattle.site_views.specs.Choice.{server_of, default_server};
    ghost use Rattle.pattern_search.specs.Found.{patterns_seen, found as found_in};
    ghost use Rattle.site_whole.specs.Whole.{whole};
    ghost use Rattle.server_choice.specs.Listening.{server_at};
    ghost use Rattle.request_phases.specs.Rounds.{IsGround};
    ghost use Rattle.served_site.specs.Served.{raw_server, raw_locations, server_numbered};

    /// A site that is to be served, of which the race check named no variable, or not.
    ///
    /// # Errors
    /// `OutOfMemory`.
    pub fn new(alloc: Global, site: Site, raceless: bool) -> Result<Self, OutOfMemory>
        ensures site { IfOk result (λ served. served.site ≡ site) }
        ensures raceless { IfOk result (λ served. served.raceless ≡ raceless) }
    {
        let servers = Servers::new(alloc, &site)?;
        let locations = locations_of(alloc, site.servers.as_slice())?;
        let index = default_index(alloc)?;
        let spare = nowhere(alloc);
        let spare_locations = Locations::new(alloc, &spare)?;
        Ok(ServedSite {
            site,
            raceless,
            servers,
            locations,
            index,
            spare,
            spare_locations,
        })
    }

    pub fn site(&self) -> &Site
        ensures { result.now ≡ self.now.site }
    {
        &self.site
    }

    /// A number that a server has.
    fn known(&self, number: Option<u32>) -> Option<u32>
        ensures server { (patterns : List SetPattern) → option_map
            (server_numbered patterns self.now) result
            ≡ server_at (whole (patterns_seen patterns) self.now.site) number }
        ensures within { IfSome result (λ n. n < length self.now.site.servers.items) }
    {
        match number {
            Some(number) => {
                if (number as usize) < self.site.servers.as_slice().len() {
                    return Some(number);
                }
                None
            }
            None => None,
        }
    }

    /// The number of the server that answers a host on connections to a local end, and none where no server listens there. The
    /// host is in lower case and without its port. It takes no memory.
    pub fn choose(&self, local: Addr, host: &[u8], patterns: &mut PatternSet) -> Option<u32>
        ensures chosen { option_map (server_numbered patterns.old self.now) result
            ≡ server_of found_in (whole (patterns_seen patterns.old) self.now.site).servers local
            host.now }
        ensures within { IfSome result (λ n. n < length self.now.site.servers.items) }
        ensures kept { patterns.new ≡ patterns.old }
    {
        self.known(self.servers.choose(local, host, patterns))
    }

    /// The number of the server of a local end where no host is known, and none where no server listens there.
    pub fn default_at(&self, local: Addr) -> Option<u32>
        ensures { (patterns : List SetPattern) → option_map
            (server_numbered patterns self.now) result
            ≡ default_server (whole (patterns_seen patterns) self.now.site).servers local }
    {
        self.known(self.servers.default_at(local))
    }

    /// The server with a number.
    pub fn server(&self, number: u32) -> &Server
        ensures { result.now ≡ raw_server self.now number }
    {
        match self.site.servers.get(number as usize) {
            Some(server) => server,
            None => &self.spare,
        }
    }

    /// The locations of the server with a number.
    fn locations(&self, number: u32) -> &Locations
        ensures { result.now ≡ raw_locations self.now number }
    {
        match self.locations.get(number as usize) {
            Some(locations) => locations,
            None => &self.spare_locations,
        }
    }

    /// What a request is served over that the server with this number answers, whose head states this length in bytes of its own
    /// body, 0 where it states none.
    pub fn ground(&self, number: u32, length: u64) -> Ground<'_>
        ensures is { IsGround result }
        ensures site { result.site.now ≡ self.now.site }
        ensures server { result.server.now ≡ raw_server self.now number }
        ensures length { result.length ≡ length }
    {
        Ground {
            site: &self.site,
            server: self.server(number),
            locations: self.locations(number),
            index: self.index.as_slice(),
            length,
        }
    }
}
