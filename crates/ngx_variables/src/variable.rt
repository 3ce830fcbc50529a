// The variables that are built in.
ghost use Rattle.std.specs.Prelude.{◌≡◌, ℕ, ◌+◌, ◌<◌, ◌≤◌, List, [], ◌∷◌, length, map, option_map, bytes_eq};
ghost use Rattle.std.specs.List.{find};
ghost use Rattle.ngx_variables.specs.Names.{name_of, variable_named, group_numbered, behind, is_builtin};

/// A built-in variable with one name of its own
/// (<https://nginx.org/en/docs/http/ngx_http_core_module.html#variables>).
#[derive(Clone, Copy)]
pub enum Variable {
    /// The request's path now, decoded and normal, or as it was rewritten.
    Uri,
    /// The same as `Uri`.
    DocumentUri,
    /// The request's arguments now: what follows the `?`.
    Args,
    /// The same as `Args`.
    QueryString,
    /// `?` where there are arguments, else empty.
    IsArgs,
    /// The text of `root` or `alias` of the request's level.
    DocumentRoot,
    /// The path of the request's file: by `root` or `alias`, and its path.
    RequestFilename,
    /// The main request's target as received, without `http://` and host.
    RequestUri,
    /// The main request's method now.
    RequestMethod,
    /// `HTTP/1.0` or `HTTP/1.1`.
    ServerProtocol,
    /// The main request's line as received.
    RequestLine,
    /// The host that the main request asks for, or the server's first name where it asks for none.
    Host,
    /// The field Content-Length, or empty.
    ContentLength,
    /// The field Content-Type, or empty.
    ContentType,
    /// The client's address.
    RemoteAddr,
    /// The client's port.
    RemotePort,
    /// The server's address.
    ServerAddr,
    /// The server's port.
    ServerPort,
    /// The server's first name.
    ServerName,
    /// `http`.
    Scheme,
    /// Empty, since no connection is encrypted.
    Https,
    /// The main request's moment.
    DateGmt,
    /// The same as `DateGmt`: local time is GMT.
    DateLocal,
}

/// All built-in variables with a name of their own.
const VARIABLES: [Variable; 23] = [
    Variable::Uri,
    Variable::DocumentUri,
    Variable::Args,
    Variable::QueryString,
    Variable::IsArgs,
    Variable::DocumentRoot,
    Variable::RequestFilename,
    Variable::RequestUri,
    Variable::RequestMethod,
    Variable::ServerProtocol,
    Variable::RequestLine,
    Variable::Host,
    Variable::ContentLength,
    Variable::ContentType,
    Variable::RemoteAddr,
    Variable::RemotePort,
    Variable::ServerAddr,
    Variable::ServerPort,
    Variable::ServerName,
    Variable::Scheme,
    Variable::Https,
    Variable::DateGmt,
    Variable::DateLocal,
];

impl Variable {
    /// The variable's name, without its `$`.
    #[tactic(auto, unfolding(crate::specs::Names::name_of))]
    pub fn name(self) -> &'static [u8]
        ensures { result.now ≡ name_of self }
    {
        match self {
            Variable::Uri => b"uri",
            Variable::DocumentUri => b"document_uri",
            Variable::Args => b"args",
            Variable::QueryString => b"query_string",
            Variable::IsArgs => b"is_args",
            Variable::DocumentRoot => b"document_root",
            Variable::RequestFilename => b"request_filename",
            Variable::RequestUri => b"request_uri",
            Variable::RequestMethod => b"request_method",
            Variable::ServerProtocol => b"server_protocol",
            Variable::RequestLine => b"request",
            Variable::Host => b"host",
            Variable::ContentLength => b"content_length",
            Variable::ContentType => b"content_type",
            Variable::RemoteAddr => b"remote_addr",
            Variable::RemotePort => b"remote_port",
            Variable::ServerAddr => b"server_addr",
            Variable::ServerPort => b"server_port",
            Variable::ServerName => b"server_name",
            Variable::Scheme => b"scheme",
            Variable::Https => b"https",
            Variable::DateGmt => b"date_gmt",
            Variable::DateLocal => b"date_local",
        }
    }
}

/// The built-in variable that has this name for its own.
#[tactic(auto, unfolding(crate::specs::Names::variable_named, crate::specs::Names::variables))]
pub(crate) fn variable_named(name: &[u8]) -> Option<Variable>
    ensures { result ≡ variable_named name.now }
{
    variable_in(&VARIABLES, name)
}

/// The first of these variables that has this name.
fn variable_in(variables: &[Variable], name: &[u8]) -> Option<Variable>
    ensures { result ≡ find (λ v. bytes_eq (name_of v) name.now) variables.now }
{
    for variable in variables {
        if variable.name() == name {
            return Some(*variable);
        }
    }
    None
}

/// The number of the group that a name of one digit from 1 to 9 means.
pub(crate) fn group_numbered(name: &[u8]) -> Option<u8>
    ensures { result ≡ group_numbered name.now }
{
    match name {
        [digit @ b'1'..=b'9'] => Some(*digit - b'0'),
        _ => None,
    }
}

/// What comes after the beginning that a family of names shares, where something does.
#[tactic(auto, unfolding(crate::specs::Names::behind))]
pub(crate) fn behind<'a>(family: &[u8], name: &'a [u8]) -> Option<&'a [u8]>
    ensures { option_map (λ rest. rest.now) result ≡ behind family.now name.now }
{
    if name.len() <= family.len() || !name.starts_with(family) {
        return None;
    }
    Some(&name[family.len()..])
}

/// Whether a name in lower case is a built-in variable's: it has a meaning of its own, is a digit from 1 to 9, or is
/// one of the families `arg_NAME`, `http_NAME` and `cookie_NAME`.
#[tactic(auto, unfolding(crate::specs::Names::is_builtin))]
pub fn is_builtin(name: &[u8]) -> bool
    ensures { result ≡ is_builtin name.now }
{
    variable_named(name).is_some()
        || group_numbered(name).is_some()
        || behind(b"arg_", name).is_some()
        || behind(b"http_", name).is_some()
        || behind(b"cookie_", name).is_some()
}
