// What directives are to those who read them.

/// A directive whose one word turns something on or off, and whose value is inherited.
#[derive(Clone, Copy, Debug, PartialEq, Eq)]
pub enum Switch {
    AbsoluteRedirect,
    PortInRedirect,
    ServerNameInRedirect,
    MergeSlashes,
    RecursiveErrorPages,
    Ssi,
    SsiSilentErrors,
}

/// A directive whose first word is a time, and whose value is inherited.
#[derive(Clone, Copy, Debug, PartialEq, Eq)]
pub enum Time {
    KeepaliveTimeout,
    ClientHeaderTimeout,
    SendTimeout,
}

/// A directive whose value is a number or a choice that levels inherit.
#[derive(Clone, Copy, Debug, PartialEq, Eq)]
pub enum Setting {
    Switch(Switch),
    Time(Time),
    KeepaliveRequests,
    SsiValueLength,
    ClientMaxBodySize,
    SubrequestOutputBufferSize,
    Satisfy,
}

/// A directive whose words are a list of values.
#[derive(Clone, Copy, Debug, PartialEq, Eq)]
pub enum Listing {
    Index,
    TryFiles,
    ErrorPage,
    Rewrite,
    ServerName,
    Allow,
    Deny,
    SsiVisible,
    SsiTypes,
    AdditionTypes,
}

/// What a directive is by its name.
#[derive(Clone, Copy, Debug, PartialEq, Eq)]
pub enum Role {
    Http,
    Events,
    Server,
    Location,
    If,
    Types,
    Listen,
    Return,
    Root,
    Alias,
    DefaultType,
    Internal,
    /// One that sets a variable: `set`, and `auth_request_set`.
    Set,
    Setting(Setting),
    Listing(Listing),
    /// One that is accepted without effect.
    Ignored,
    /// One whose value isn't read yet, and each other name.
    Other,
}
