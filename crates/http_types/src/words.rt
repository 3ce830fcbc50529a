// Words of HTTP and of the network.
use byte_text::ByteText;
use std::net::IpAddr;

/// One end of a connection.
#[derive(Clone, Copy, PartialEq, Eq)]
pub struct Addr {
    pub ip: IpAddr,
    pub port: u16,
}

/// A request's method (RFC 9110, section 9). The names of methods are compared in their case.
#[derive(Clone, Debug, Drop)]
pub enum Method {
    Get,
    Head,
    Post,
    Other(ByteText),
}

/// The version of HTTP in a request line (RFC 9112, section 2.3). Any other version is refused with its head.
#[derive(Clone, Copy, Debug, PartialEq, Eq)]
pub enum Version {
    V10,
    V11,
}

/// How the body after a request's head is framed (RFC 9112, section 6).
#[derive(Clone, Copy, Debug, PartialEq, Eq)]
pub enum BodyKind {
    /// No body: neither Content-Length nor Transfer-Encoding, or a Content-Length of 0.
    Empty,
    /// This many bytes.
    Length(u64),
    /// The chunked transfer coding (RFC 9112, section 7.1).
    Chunked,
}
