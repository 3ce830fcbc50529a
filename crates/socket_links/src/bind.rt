// Sockets that listen, and the peers that they accept.
use http_types::Addr;
use libc::net as c;
use mio::net::{TcpListener, TcpStream};
use os::FromRawFd;
use std::io;
use std::net::{IpAddr, Ipv4Addr, Ipv6Addr, Net, SocketAddr};
use std::os::fd::{AsRawFd, OwnedFd};

// As many connections wait to be accepted as the system allows.
const BACKLOG: i32 = i32::MAX;

// How many bytes an IPv6 address of a socket has (ipv6(7)).
const V6_LEN: u32 = 28;

fn last_error() -> io::Error {
    io::Error::from_raw_os_error(os::errno())
}

fn check(status: i32) -> io::Result<()> {
    if status < 0 {
        Err(last_error())
    } else {
        Ok(())
    }
}

// An IPv6 address as C reads it: the family, the port, and from the eighth byte on the address (ipv6(7)).
fn v6_bytes(ip: Ipv6Addr, port: u16) -> [u8; c::_SS_SIZE] {
    let mut raw = [0u8; c::_SS_SIZE];
    raw[0..2].copy_from_slice(&(c::AF_INET6 as u16).to_ne_bytes());
    raw[2..4].copy_from_slice(&port.to_be_bytes());
    raw[8..24].copy_from_slice(&ip.octets());
    raw
}

// The value of an option that is on.
fn switched_on() -> [u8; 16] {
    let mut value = [0u8; 16];
    value[0..4].copy_from_slice(&1i32.to_ne_bytes());
    value
}

// A socket that listens on an IPv6 address, for IPv6 alone: IPv4 peers come by sockets of their own, as nginx has it
// (`ipv6only`, <https://nginx.org/en/docs/http/ngx_http_core_module.html#listen>).
fn listen_v6(ip: Ipv6Addr, port: u16) -> io::Result<TcpListener> {
    let kind = c::SOCK_STREAM | c::SOCK_NONBLOCK | c::SOCK_CLOEXEC;
    let fd = unsafe { c::socket(c::AF_INET6, kind, 0) };
    if fd < 0 {
        return Err(last_error());
    }
    let socket = unsafe { OwnedFd::from_raw_fd(fd) };
    let fd = socket.as_raw_fd();
    let on = switched_on();
    check(unsafe { c::setsockopt(fd, c::SOL_SOCKET, c::SO_REUSEADDR, &on, 4) })?;
    check(unsafe { c::setsockopt(fd, c::IPPROTO_IPV6, c::IPV6_V6ONLY, &on, 4) })?;
    let raw = v6_bytes(ip, port);
    check(unsafe { c::bind(fd, &raw, V6_LEN) })?;
    check(c::listen(fd, BACKLOG))?;
    Ok(TcpListener::from(socket))
}

/// A socket that listens on an address. What is written to a peer that it accepts is sent at once, since the system gives each of them
/// the options of the socket (`tcp_nodelay`, <https://nginx.org/en/docs/http/ngx_http_core_module.html#tcp_nodelay>).
pub fn listen_on<R: Net>(net: &R, addr: Addr) -> io::Result<TcpListener> {
    let socket = match addr.ip {
        IpAddr::V4(_) => TcpListener::bind(net, SocketAddr::new(addr.ip, addr.port))?,
        IpAddr::V6(ip) => listen_v6(ip, addr.port)?,
    };
    let (fd, on) = (socket.as_raw_fd(), switched_on());
    check(unsafe { c::setsockopt(fd, c::IPPROTO_TCP, c::TCP_NODELAY, &on, 4) })?;
    Ok(socket)
}

// The address that C has put there (ip(7), ipv6(7)); none of another family.
fn addr_in(raw: &[u8; c::_SS_SIZE]) -> Option<Addr> {
    let port = u16::from_be_bytes([raw[2], raw[3]]);
    let ip = match i32::from(u16::from_ne_bytes([raw[0], raw[1]])) {
        c::AF_INET => IpAddr::V4(Ipv4Addr::new(raw[4], raw[5], raw[6], raw[7])),
        c::AF_INET6 => {
            let mut octets = [0u8; 16];
            octets.copy_from_slice(&raw[8..24]);
            IpAddr::V6(Ipv6Addr::from(octets))
        }
        _ => return None,
    };
    Some(Addr { ip, port })
}

/// The next peer of a socket that listens, by a call that makes the peer's socket one that never waits too.
pub fn accept_on(socket: &TcpListener) -> io::Result<(TcpStream, Addr)> {
    let mut raw = [0u8; c::_SS_SIZE];
    let mut len = c::_SS_SIZE as u32;
    let kind = c::SOCK_NONBLOCK | c::SOCK_CLOEXEC;
    let fd = unsafe { c::accept4(socket.as_raw_fd(), &mut raw, &mut len, kind) };
    if fd < 0 {
        return Err(last_error());
    }
    let stream = TcpStream::from(unsafe { OwnedFd::from_raw_fd(fd) });
    match addr_in(&raw) {
        Some(peer) => Ok((stream, peer)),
        None => Err(io::Error::from(io::ErrorKind::Unsupported)),
    }
}

/// Where the peer of a link connected, which one that listens on this address has accepted. The system is asked only where that may be
/// one of several addresses.
pub fn local_end(addr: Addr, stream: &TcpStream) -> io::Result<Addr> {
    if !addr.ip.is_unspecified() && addr.port != 0 {
        return Ok(addr);
    }
    let local = stream.local_addr()?;
    Ok(Addr {
        ip: local.ip(),
        port: local.port(),
    })
}

fn is_same_family(a: IpAddr, b: IpAddr) -> bool {
    a.is_ipv4() == b.is_ipv4()
}

/// Whether the peers of an address reach what listens on another one: on the same, or on all addresses of its family, at
/// the same port.
pub fn is_covered(addr: Addr, by: Addr) -> bool {
    addr.port == by.port
        && (addr.ip == by.ip || by.ip.is_unspecified() && is_same_family(addr.ip, by.ip))
}
