// The table of directives, in the order of their names.
ghost use Rattle.std.specs.Prelude.{◌≡◌, ◌≢◌, ◌<◌, length, map, IfSome, IfNone};
ghost use Rattle.std.specs.Ordering.{nat_cmp, ordering_index};
ghost use Rattle.std.specs.Cmp.Lexicographic.{slice_cmp};
ghost use Rattle.std.specs.List.{HoldsAt, AllWithin};
ghost use Rattle.std.specs.List.Sorted.{IsNonDecreasingBy};
ghost use Rattle.std.specs.Option.{option_copied};
ghost use Rattle.conf_table.specs.Table.{rows, in_family, entry_of};

use crate::role::{Listing, Role, Setting, Switch, Time};
use crate::rule::{Contexts, DirectiveRule};
use std::cmp::Ordering;

/// A directive's name and its rule.
#[derive(Clone, Copy)]
struct Row {
    name: &'static [u8],
    rule: DirectiveRule,
}

const TOP: Contexts = Contexts {
    top: true,
    events: false,
    http: false,
    server: false,
    location: false,
    server_if: false,
    location_if: false,
};

const HTTP: Contexts = Contexts {
    top: false,
    events: false,
    http: true,
    server: false,
    location: false,
    server_if: false,
    location_if: false,
};

const SERVER_LOCATION: Contexts = Contexts {
    top: false,
    events: false,
    http: false,
    server: true,
    location: true,
    server_if: false,
    location_if: false,
};

const HTTP_SERVER_LOCATION: Contexts = Contexts {
    top: false,
    events: false,
    http: true,
    server: true,
    location: true,
    server_if: false,
    location_if: false,
};

const SERVER: Contexts = Contexts {
    top: false,
    events: false,
    http: false,
    server: true,
    location: false,
    server_if: false,
    location_if: false,
};

const HTTP_SERVER_LOCATION_IF: Contexts = Contexts {
    top: false,
    events: false,
    http: true,
    server: true,
    location: true,
    server_if: false,
    location_if: true,
};

const LOCATION: Contexts = Contexts {
    top: false,
    events: false,
    http: false,
    server: false,
    location: true,
    server_if: false,
    location_if: false,
};

const HTTP_SERVER: Contexts = Contexts {
    top: false,
    events: false,
    http: true,
    server: true,
    location: false,
    server_if: false,
    location_if: false,
};

const SERVER_LOCATION_IFS: Contexts = Contexts {
    top: false,
    events: false,
    http: false,
    server: true,
    location: true,
    server_if: true,
    location_if: true,
};

const ANYWHERE: Contexts = Contexts {
    top: true,
    events: true,
    http: true,
    server: true,
    location: true,
    server_if: true,
    location_if: true,
};

// A row with each of its parts.
macro_rules! row {
    ($name:expr, $places:expr, $least:expr, $greatest:expr, $block:expr, $many:expr, $ignored:expr, $role:expr) => {
        Row {
            name: $name,
            rule: DirectiveRule {
                places: $places,
                least: $least,
                greatest: $greatest,
                block: $block,
                many: $many,
                ignored: $ignored,
                role: $role,
            },
        }
    };
}

// A directive without a block that may be once in a level.
macro_rules! once {
    ($name:expr, $places:expr, $least:expr, $greatest:expr, $role:expr) => {
        row!($name, $places, $least, $greatest, false, false, false, $role)
    };
}

// One without a block that may be several times.
macro_rules! many {
    ($name:expr, $places:expr, $least:expr, $greatest:expr, $role:expr) => {
        row!($name, $places, $least, $greatest, false, true, false, $role)
    };
}

// One with a block that may be once.
macro_rules! one_block {
    ($name:expr, $places:expr, $least:expr, $greatest:expr, $role:expr) => {
        row!($name, $places, $least, $greatest, true, false, false, $role)
    };
}

// One with a block of which there may be several.
macro_rules! blocks {
    ($name:expr, $places:expr, $least:expr, $greatest:expr, $role:expr) => {
        row!($name, $places, $least, $greatest, true, true, false, $role)
    };
}

// One that is accepted anywhere, with any words, and has no effect.
macro_rules! ignored {
    ($name:expr) => {
        row!($name, ANYWHERE, 0, None, false, true, true, Role::Ignored)
    };
}

/// The directives, in the order of their names, byte by byte.
static TABLE: [Row; 80] = [
    once!(
        b"absolute_redirect",
        HTTP_SERVER_LOCATION,
        1,
        Some(1),
        Role::Setting(Setting::Switch(Switch::AbsoluteRedirect))
    ),
    ignored!(b"access_log"),
    once!(
        b"add_after_body",
        HTTP_SERVER_LOCATION,
        1,
        Some(1),
        Role::Other
    ),
    once!(
        b"add_before_body",
        HTTP_SERVER_LOCATION,
        1,
        Some(1),
        Role::Other
    ),
    many!(
        b"addition_types",
        HTTP_SERVER_LOCATION,
        1,
        None,
        Role::Listing(Listing::AdditionTypes)
    ),
    once!(b"alias", LOCATION, 1, Some(1), Role::Alias),
    many!(
        b"allow",
        HTTP_SERVER_LOCATION,
        1,
        Some(1),
        Role::Listing(Listing::Allow)
    ),
    once!(
        b"auth_request",
        HTTP_SERVER_LOCATION,
        1,
        Some(1),
        Role::Other
    ),
    many!(
        b"auth_request_set",
        HTTP_SERVER_LOCATION,
        2,
        Some(2),
        Role::Set
    ),
    many!(b"break", SERVER_LOCATION_IFS, 0, Some(0), Role::Other),
    ignored!(b"client_body_buffer_size"),
    ignored!(b"client_body_timeout"),
    ignored!(b"client_header_buffer_size"),
    once!(
        b"client_header_timeout",
        HTTP_SERVER,
        1,
        Some(1),
        Role::Setting(Setting::Time(Time::ClientHeaderTimeout))
    ),
    once!(
        b"client_max_body_size",
        HTTP_SERVER_LOCATION,
        1,
        Some(1),
        Role::Setting(Setting::ClientMaxBodySize)
    ),
    ignored!(b"daemon"),
    once!(
        b"default_type",
        HTTP_SERVER_LOCATION,
        1,
        Some(1),
        Role::DefaultType
    ),
    many!(
        b"deny",
        HTTP_SERVER_LOCATION,
        1,
        Some(1),
        Role::Listing(Listing::Deny)
    ),
    ignored!(b"error_log"),
    many!(
        b"error_page",
        HTTP_SERVER_LOCATION_IF,
        2,
        None,
        Role::Listing(Listing::ErrorPage)
    ),
    ignored!(b"etag"),
    one_block!(b"events", TOP, 0, Some(0), Role::Events),
    ignored!(b"gzip"),
    one_block!(b"http", TOP, 0, Some(0), Role::Http),
    blocks!(b"if", SERVER_LOCATION, 1, None, Role::If),
    many!(b"include", ANYWHERE, 1, Some(1), Role::Other),
    many!(
        b"index",
        HTTP_SERVER_LOCATION,
        1,
        None,
        Role::Listing(Listing::Index)
    ),
    once!(b"internal", LOCATION, 0, Some(0), Role::Internal),
    once!(
        b"keepalive_requests",
        HTTP_SERVER_LOCATION,
        1,
        Some(1),
        Role::Setting(Setting::KeepaliveRequests)
    ),
    once!(
        b"keepalive_timeout",
        HTTP_SERVER_LOCATION,
        1,
        Some(2),
        Role::Setting(Setting::Time(Time::KeepaliveTimeout))
    ),
    ignored!(b"large_client_header_buffers"),
    many!(b"listen", SERVER, 1, Some(2), Role::Listen),
    blocks!(b"location", SERVER_LOCATION, 1, Some(2), Role::Location),
    ignored!(b"log_format"),
    ignored!(b"log_not_found"),
    once!(
        b"merge_slashes",
        HTTP_SERVER,
        1,
        Some(1),
        Role::Setting(Setting::Switch(Switch::MergeSlashes))
    ),
    ignored!(b"multi_accept"),
    ignored!(b"open_file_cache"),
    ignored!(b"output_buffers"),
    ignored!(b"pcre_jit"),
    ignored!(b"pid"),
    once!(
        b"port_in_redirect",
        HTTP_SERVER_LOCATION,
        1,
        Some(1),
        Role::Setting(Setting::Switch(Switch::PortInRedirect))
    ),
    ignored!(b"postpone_output"),
    once!(
        b"recursive_error_pages",
        HTTP_SERVER_LOCATION,
        1,
        Some(1),
        Role::Setting(Setting::Switch(Switch::RecursiveErrorPages))
    ),
    many!(b"return", SERVER_LOCATION_IFS, 1, Some(2), Role::Return),
    many!(
        b"rewrite",
        SERVER_LOCATION_IFS,
        2,
        Some(3),
        Role::Listing(Listing::Rewrite)
    ),
    ignored!(b"rewrite_log"),
    once!(b"root", HTTP_SERVER_LOCATION_IF, 1, Some(1), Role::Root),
    once!(
        b"satisfy",
        HTTP_SERVER_LOCATION,
        1,
        Some(1),
        Role::Setting(Setting::Satisfy)
    ),
    once!(
        b"send_timeout",
        HTTP_SERVER_LOCATION,
        1,
        Some(1),
        Role::Setting(Setting::Time(Time::SendTimeout))
    ),
    ignored!(b"sendfile"),
    blocks!(b"server", HTTP, 0, Some(0), Role::Server),
    many!(
        b"server_name",
        SERVER,
        1,
        None,
        Role::Listing(Listing::ServerName)
    ),
    once!(
        b"server_name_in_redirect",
        HTTP_SERVER_LOCATION,
        1,
        Some(1),
        Role::Setting(Setting::Switch(Switch::ServerNameInRedirect))
    ),
    ignored!(b"server_names_hash_bucket_size"),
    ignored!(b"server_names_hash_max_size"),
    ignored!(b"server_tokens"),
    many!(b"set", SERVER_LOCATION_IFS, 2, Some(2), Role::Set),
    once!(
        b"ssi",
        HTTP_SERVER_LOCATION_IF,
        1,
        Some(1),
        Role::Setting(Setting::Switch(Switch::Ssi))
    ),
    once!(
        b"ssi_silent_errors",
        HTTP_SERVER_LOCATION,
        1,
        Some(1),
        Role::Setting(Setting::Switch(Switch::SsiSilentErrors))
    ),
    many!(
        b"ssi_types",
        HTTP_SERVER_LOCATION,
        1,
        None,
        Role::Listing(Listing::SsiTypes)
    ),
    once!(
        b"ssi_value_length",
        HTTP_SERVER_LOCATION,
        1,
        Some(1),
        Role::Setting(Setting::SsiValueLength)
    ),
    once!(
        b"ssi_visible",
        HTTP_SERVER,
        1,
        None,
        Role::Listing(Listing::SsiVisible)
    ),
    ignored!(b"ssl_prefer_server_ciphers"),
    ignored!(b"ssl_protocols"),
    once!(
        b"subrequest_output_buffer_size",
        HTTP_SERVER_LOCATION,
        1,
        Some(1),
        Role::Setting(Setting::SubrequestOutputBufferSize)
    ),
    ignored!(b"tcp_nodelay"),
    ignored!(b"tcp_nopush"),
    once!(
        b"try_files",
        SERVER_LOCATION,
        2,
        None,
        Role::Listing(Listing::TryFiles)
    ),
    blocks!(b"types", HTTP_SERVER_LOCATION, 0, Some(0), Role::Types),
    ignored!(b"types_hash_bucket_size"),
    ignored!(b"types_hash_max_size"),
    ignored!(b"uninitialized_variable_warn"),
    ignored!(b"use"),
    ignored!(b"user"),
    ignored!(b"variables_hash_bucket_size"),
    ignored!(b"variables_hash_max_size"),
    ignored!(b"worker_connections"),
    ignored!(b"worker_processes"),
    ignored!(b"worker_rlimit_nofile"),
];

/// What holds of a directive whose name alone begins with that of a family that is accepted without effect.
static IGNORED: DirectiveRule = DirectiveRule {
    places: ANYWHERE,
    least: 0,
    greatest: None,
    block: false,
    many: true,
    ignored: true,
    role: Role::Ignored,
};

/// The whole table. It takes no memory.
#[tactic(auto, unfolding(crate::specs::Table::rows))]
fn table() -> &'static [Row]
    ensures { map (λ row. (row.name.now, row.rule)) result.now ≡ rows }
{
    &TABLE
}

/// The place of a name in rows that are in the order of their names, by bisection.
fn search(rows: &[Row], name: &[u8]) -> Option<usize>
    requires { IsNonDecreasingBy
        (λ row. ordering_index (slice_cmp nat_cmp row.name.now name.now)) rows.now }
    ensures bound { IfSome result (λ at. at < length rows.now) }
    ensures found { IfSome result (HoldsAt
        (λ row. slice_cmp nat_cmp row.name.now name.now ≡ Ordering.Equal) rows.now) }
    ensures missing { IfNone result
        (AllWithin (λ row. slice_cmp nat_cmp row.name.now name.now ≢ Ordering.Equal) rows.now
        0 (length rows.now)) }
{
    let mut low = 0;
    let mut high = rows.len();
    while low < high {
        let middle = low + (high - low) / 2;
        match rows[middle].name.cmp(name) {
            Ordering::Less => low = middle + 1,
            Ordering::Equal => return Some(middle),
            Ordering::Greater => high = middle,
        }
    }
    None
}

/// Whether a name begins with that of a family of directives that are accepted without effect.
fn is_in_family(name: &[u8]) -> bool
    ensures { result ≡ in_family name.now }
{
    name.starts_with(b"gzip_") || name.starts_with(b"open_file_cache_")
}

/// The rule of the directive of this name, and `None` exactly where there is none. Takes no memory.
///
/// These are the directives of nginx's core, access, addition, auth_request, index, rewrite and SSI modules that this
/// server knows (nginx's documentation, "Modules reference"), and those that it accepts and ignores: some by their
/// names, and all whose names begin with `gzip_` or `open_file_cache_`.
pub fn entry(name: &[u8]) -> Option<&'static DirectiveRule>
    ensures { option_copied result ≡ entry_of name.now }
{
    let rows = table();
    match search(rows, name) {
        Some(at) => Some(&rows[at].rule),
        None => {
            if is_in_family(name) {
                Some(&IGNORED)
            } else {
                None
            }
        }
    }
}
