// What a configuration says of each directive.
ghost use Rattle.std.specs.Prelude.{◌≡◌};
ghost use Rattle.conf_table.specs.Rules.{has_place};

use crate::role::Role;

/// A place in which directives are.
#[derive(Clone, Copy, Debug, PartialEq, Eq)]
pub enum Context {
    /// At the top of the configuration, outside each block.
    Top,
    /// In `events`.
    Events,
    /// In `http`.
    Http,
    /// In a `server`.
    Server,
    /// In a `location`.
    Location,
    /// In an `if` of a server.
    ServerIf,
    /// In an `if` of a location.
    LocationIf,
}

/// A set of places.
#[derive(Clone, Copy, Debug, PartialEq, Eq)]
pub struct Contexts {
    pub top: bool,
    pub events: bool,
    pub http: bool,
    pub server: bool,
    pub location: bool,
    pub server_if: bool,
    pub location_if: bool,
}

impl Contexts {
    /// Whether the place is in the set.
    pub fn contains(self, place: Context) -> bool
        ensures { result ≡ has_place self place }
    {
        match place {
            Context::Top => self.top,
            Context::Events => self.events,
            Context::Http => self.http,
            Context::Server => self.server,
            Context::Location => self.location,
            Context::ServerIf => self.server_if,
            Context::LocationIf => self.location_if,
        }
    }
}

/// What holds of a directive: where it may be, how many words may follow its name, and whether it has a block and may
/// be several times in one level.
#[derive(Clone, Copy, Debug, PartialEq, Eq)]
pub struct DirectiveRule {
    pub places: Contexts,
    /// The least number of words after the name.
    pub least: u32,
    /// The greatest number of words after the name, if there is a bound.
    pub greatest: Option<u32>,
    /// Whether it has a block; else it may have none.
    pub block: bool,
    /// Whether it may be several times in one level.
    pub many: bool,
    /// Whether it is accepted and has no effect.
    pub ignored: bool,
    /// What it is to those who read it.
    pub role: Role,
}
