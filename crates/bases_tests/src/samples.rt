// A request to `/d/` with the arguments `a=1`, whose files are below `/w`.
use byte_text::ByteText;
use http_moment::LocalDate;
use http_types::{Addr, Method, Version};
use ngx_variables::{FileRoot, Groups, Main, Request, Role, Value};
use req_head::HeadFields;
use site_model::{Level, Program};
use std::alloc::Global;
use std::net::{IpAddr, Ipv4Addr};
use std::test::Fail;

pub fn text(alloc: Global, bytes: &[u8]) -> Result<ByteText, Fail> {
    Ok(ByteText::from_slice(alloc, bytes)?)
}

pub fn value(alloc: Global, bytes: &[u8]) -> Result<Value, Fail> {
    Ok(Value::compile(alloc, bytes)?)
}

pub fn place(alloc: Global) -> Result<FileRoot, Fail> {
    Ok(FileRoot::Root(value(alloc, b"/w")?))
}

pub fn main_request(alloc: Global) -> Result<Main, Fail> {
    let end = Addr {
        ip: IpAddr::V4(Ipv4Addr::new(10, 0, 0, 1)),
        port: 80,
    };
    Ok(Main {
        asked: Method::Get,
        method: Method::Get,
        version: Version::V11,
        target: text(alloc, b"/d/?a=1")?,
        host: text(alloc, b"h.x")?,
        server_name: text(alloc, b"s.x")?,
        local: end,
        peer: end,
        moment: 0,
        tree: 0,
        date: LocalDate::of(0),
        fields: HeadFields::new(alloc),
        folder: text(alloc, b"/etc/ngx")?,
    })
}

pub fn request(alloc: Global) -> Result<Request, Fail> {
    Ok(Request {
        method: Method::Get,
        path: text(alloc, b"/d/")?,
        args: text(alloc, b"a=1")?,
        groups: Groups::new(alloc),
        place: None,
        role: Role::Main,
    })
}

/// A level that states nothing.
pub fn level(alloc: Global) -> Result<Level, Fail> {
    Ok(Level {
        place: place(alloc)?,
        types: 0,
        requests: 1000,
        idle: 75_000,
        index: None,
        tries: None,
        internal: false,
        pages: None,
        recursive: false,
        body_most: 1_048_576,
        send_wait: 60_000,
        head_wait: 60_000,
        absolute: true,
        with_port: true,
        with_server_name: false,
        any: false,
        rules: None,
        auth: None,
        auth_sets: None,
        ssi: false,
        silent: false,
        ssi_types: None,
        value_most: 256,
        capture_most: 4096,
        before: None,
        after: None,
        addition_types: None,
        program: Program::new(alloc),
    })
}
