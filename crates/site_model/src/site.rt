// The site that a configuration describes.
use crate::Listens;
use crate::program::Program;
use crate::values::{AuthSets, IndexNames, MediaTypes, PageRules, Tries};
use access_rules::Rule;
use byte_text::{ByteText, ByteTexts};
use file_type::Types;
use ngx_variables::{FileRoot, Value};

/// The directive `return` (nginx's rewrite module): a code, and the text that is answered with it.
#[derive(Drop)]
pub struct Return {
    pub code: u16,
    pub text: Option<Value>,
}

/// The values that hold in a level: in a server, or in one of its locations.
#[derive(Drop)]
pub struct Level {
    /// Where its files are: `root` or `alias`.
    pub place: FileRoot,
    /// The number of its media types among the site's lists (`types` and `default_type`).
    pub types: u32,
    /// How many requests are answered on one connection (`keepalive_requests`).
    pub requests: u32,
    /// How long a connection is kept open after a response, in milliseconds (`keepalive_timeout`); 0 closes it.
    pub idle: u64,
    /// The number of its list of index names (`index`), `index.html` alone without one.
    pub index: Option<u32>,
    /// The names that are tried before it answers (`try_files`), which no level inherits.
    pub tries: Option<Tries>,
    /// It is asked from inside alone (`internal`).
    pub internal: bool,
    /// The number of its rules for errors (`error_page`), none without one; and whether an error of an error's page has a page
    /// too (`recursive_error_pages`).
    pub pages: Option<u32>,
    pub recursive: bool,
    /// The longest body of a request, in bytes, and 0 for any length (`client_max_body_size`).
    pub body_most: u64,
    /// How long a write and a head may take, in milliseconds (`send_timeout`, `client_header_timeout`).
    pub send_wait: u64,
    pub head_wait: u64,
    /// How a redirect is written (`absolute_redirect`, `port_in_redirect`, `server_name_in_redirect`).
    pub absolute: bool,
    pub with_port: bool,
    pub with_server_name: bool,
    /// Whether one of address rules and subrequest suffices (`satisfy any`); the number of the address rules (`allow`, `deny`);
    /// the subrequest that decides (`auth_request`), and the number of what is set by it (`auth_request_set`).
    pub any: bool,
    pub rules: Option<u32>,
    pub auth: Option<ByteText>,
    pub auth_sets: Option<u32>,
    /// Server side includes (`ssi`, `ssi_silent_errors`, `ssi_types`, `ssi_value_length`, `subrequest_output_buffer_size`).
    pub ssi: bool,
    pub silent: bool,
    pub ssi_types: Option<u32>,
    pub value_most: u32,
    pub capture_most: u32,
    /// Additions (`add_before_body`, `add_after_body`, `addition_types`).
    pub before: Option<ByteText>,
    pub after: Option<ByteText>,
    pub addition_types: Option<u32>,
    /// Its own rewrite program, with what the level returns.
    pub program: Program,
}

/// How a location is matched: by the paths that begin with its text, by the same (`^~`), by its text alone (`=`), or by a
/// pattern, which is named by its number.
#[derive(Clone, Copy)]
pub enum LocationKind {
    Prefix,
    FirmPrefix,
    Exactly,
    Regex(u32),
}

/// A location of a server (nginx's `location`): its text, the number of its level, how it is matched, and how deep it is in
/// other locations: those that come after it and are deeper are in it.
#[derive(Drop)]
pub struct Location {
    pub text: ByteText,
    pub level: u32,
    pub kind: LocationKind,
    pub depth: u32,
}

/// A location `@name`, for redirects alone.
#[derive(Drop)]
pub struct NamedLocation {
    pub name: ByteText,
    pub level: u32,
}

/// A name of a server, in lower case: a name, `*.x` by `.x`, `x.*` by `x.`, `.x` for both, or a pattern by its number
/// (<https://nginx.org/en/docs/http/server_names.html>).
#[derive(Drop)]
pub enum ServerName {
    Whole(ByteText),
    Ending(ByteText),
    Beginning(ByteText),
    WithSubdomains(ByteText),
    Like(u32),
}

/// A server: the addresses that it listens on, the number of its own level, and its locations in the order of the text.
#[derive(Drop)]
pub struct Server {
    pub listens: Listens,
    pub level: u32,
    pub locations: Vec<Location>,
    /// Those of its addresses whose `default_server` it is.
    pub defaults: Listens,
    /// Its names, and the first as it is shown, without a leading dot.
    pub names: Vec<ServerName>,
    pub first_name: ByteText,
    /// Its locations `@name`.
    pub named: Vec<NamedLocation>,
    /// Whether slashes that are neighbours are one (`merge_slashes`).
    pub merge: bool,
    /// The variables that documents see (`ssi_visible`), all without it.
    pub visible: Option<ByteTexts>,
}

/// The address rules that levels share, in the order of the text.
#[derive(Drop)]
pub struct Rules {
    pub rules: Vec<Rule>,
}

/// A site: its servers in the order of the text, and the levels and the lists of media types that they name by number, so
/// that levels which inherit a list share it. A number that is none of the lists' means `outside` or `plain`.
#[derive(Drop)]
pub struct Site {
    /// The folder at which relative paths start: that of the main file.
    pub folder: ByteText,
    pub servers: Vec<Server>,
    pub levels: Vec<Level>,
    pub types: Vec<Types>,
    /// The values that hold where nothing is stated.
    pub outside: Level,
    /// The media types that hold where nothing is stated.
    pub plain: Types,
    /// What levels name by number: index names, rules for errors, address rules, what is set by a subrequest, and lists of
    /// media types of filters.
    pub indexes: Vec<IndexNames>,
    pub pages: Vec<PageRules>,
    pub rules: Vec<Rules>,
    pub auth_sets: Vec<AuthSets>,
    pub media: Vec<MediaTypes>,
}

impl Site {
    ghost use Rattle.std.specs.Prelude.{◌≡◌};
    ghost use Rattle.site_model.specs.Levels.{types_at, raw_level};

    /// The media types with a number.
    #[tactic(auto, unfolding(crate::specs::Levels::types_at))]
    pub fn types(&self, number: u32) -> &Types
        ensures { result.now ≡ types_at self.now number }
    {
        match self.types.get(number as usize) {
            Some(types) => types,
            None => &self.plain,
        }
    }

    /// The level with a number.
    #[tactic(auto, unfolding(crate::specs::Levels::raw_level))]
    pub fn level(&self, number: u32) -> &Level
        ensures { result.now ≡ raw_level self.now number }
    {
        match self.levels.get(number as usize) {
            Some(level) => level,
            None => &self.outside,
        }
    }
}
