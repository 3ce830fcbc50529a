// Small sites, whose patterns are `^/(a)` and `(gif)$`.
use crate::samples::{place, text};
use byte_text::ByteText;
use file_type::Types;
use http_types::Addr;
use ngx_pattern::{CrateMaker, PatternSet};
use site_model::{Level, Listens, Program, Server, Site};
use std::alloc::Global;
use std::net::{IpAddr, Ipv4Addr};
use std::test::Fail;

pub fn patterns(alloc: Global) -> Result<PatternSet, Fail> {
    let mut patterns = PatternSet::new(alloc);
    let mut maker = CrateMaker::new();
    for pattern in [b"^/(a)".as_slice(), b"(gif)$".as_slice()] {
        let _id = patterns
            .add(&mut maker, pattern, false)
            .ok()
            .ok_or("no pattern")?;
    }
    Ok(patterns)
}

pub fn listens(address: [u8; 4], port: u16) -> Addr {
    let [a, b, c, d] = address;
    Addr {
        ip: IpAddr::V4(Ipv4Addr::new(a, b, c, d)),
        port,
    }
}

pub fn server(alloc: Global) -> Result<Server, Fail> {
    Ok(Server {
        listens: Listens::new(alloc),
        level: 0,
        locations: Vec::new(alloc),
        defaults: Listens::new(alloc),
        names: Vec::new(alloc),
        first_name: ByteText::new(alloc),
        named: Vec::new(alloc),
        merge: true,
        visible: None,
    })
}

fn level(alloc: Global) -> Result<Level, Fail> {
    Ok(Level {
        place: place(alloc)?,
        types: 0,
        requests: 1000,
        idle: 75_000,
        index: None,
        tries: None,
        internal: false,
        pages: None,
        recursive: false,
        body_most: 1_048_576,
        send_wait: 60_000,
        head_wait: 60_000,
        absolute: true,
        with_port: true,
        with_server_name: false,
        any: false,
        rules: None,
        auth: None,
        auth_sets: None,
        ssi: false,
        silent: false,
        ssi_types: None,
        value_most: 256,
        capture_most: 4096,
        before: None,
        after: None,
        addition_types: None,
        program: Program::new(alloc),
    })
}

pub fn site(alloc: Global) -> Result<Site, Fail> {
    Ok(Site {
        folder: text(alloc, b"/")?,
        servers: Vec::new(alloc),
        levels: Vec::new(alloc),
        types: Vec::new(alloc),
        outside: level(alloc)?,
        plain: Types::new(alloc, Vec::new(alloc), text(alloc, b"text/plain")?)?,
        indexes: Vec::new(alloc),
        pages: Vec::new(alloc),
        rules: Vec::new(alloc),
        auth_sets: Vec::new(alloc),
        media: Vec::new(alloc),
    })
}
