//! What is said by short texts: rules of addresses, extensions, paths of files; and the texts themselves.

use access_rules::{Rule, Source, allowed, decision};
use byte_text::{ByteQueue, ByteText, ByteTexts};
use file_path::path_of;
use file_tree::Node;
use file_type::{TypeEntry, Types, extension};
use http_moment::LocalDate;
use http_types::{Addr, Method, Version};
use ngx_variables::{EvalFault, FileRoot, Groups, Main, Request, Role, Value, VarTable};
use req_head::HeadFields;
use static_content::{Content, decide, refusal_of};
use std::alloc::Global;
use std::net::{IpAddr, Ipv4Addr};
use std::process::Abort;
use std::test::Fail;

fn address(text: &[u8]) -> Result<IpAddr, Fail> {
    Ok(IpAddr::parse_ascii(text)?)
}

fn rule(allow: bool, text: &[u8]) -> Result<Rule, Fail> {
    Ok(Rule::read(allow, text).ok_or("no rule")?)
}

fn all_are_decided(
    rt: &impl Abort,
    rules: &[Rule],
    cases: &[(&[u8], Option<bool>)],
) -> Result<(), Fail> {
    for (text, expected) in cases {
        assert_eq!(rt; decision(rules, address(*text)?), *expected);
    }
    Ok(())
}

#[test]
fn the_first_rule_that_matches_decides(rt: HostRuntime) -> Result<(), Fail> {
    // The example of nginx's ngx_http_access_module.
    let rules = [
        rule(false, b"192.168.1.1")?,
        rule(true, b"192.168.1.0/24")?,
        rule(true, b"10.1.1.0/16")?,
        rule(true, b"2001:0db8::/32")?,
        rule(false, b"all")?,
    ];
    all_are_decided(
        &rt,
        rules.as_slice(),
        &[
            (b"192.168.1.1", Some(false)),
            (b"192.168.1.2", Some(true)),
            (b"192.168.2.1", Some(false)),
            (b"10.1.200.3", Some(true)),
            (b"10.2.0.1", Some(false)),
            (b"2001:db8:ffff::", Some(true)),
            (b"2001:db9::1", Some(false)),
            (b"::ffff:10.1.1.1", Some(false)),
        ],
    )?;
    assert!(rt; !allowed(rules.as_slice(), address(b"10.2.0.1")?));
    assert!(rt; allowed(&[], address(b"10.2.0.1")?));
    let some = [rule(false, b"10.0.0.0/9")?, rule(true, b"::/0")?];
    all_are_decided(
        &rt,
        some.as_slice(),
        &[
            (b"10.127.0.0", Some(false)),
            (b"10.128.0.0", None),
            (b"ff::1", Some(true)),
        ],
    )
}

/// Each text is a network of this many bits.
fn all_are_networks(rt: &impl Abort, cases: &[(&[u8], u8)]) {
    for (text, expected) in cases {
        match Source::read(*text) {
            Some(Source::Network { bits, .. }) => assert_eq!(rt; bits, *expected),
            _ => assert!(rt; false),
        }
    }
}

fn are_no_rules(rt: &impl Abort, texts: &[&[u8]]) {
    for text in texts {
        assert!(rt; Rule::read(true, *text).is_none());
    }
}

#[test]
fn rules_have_their_texts(rt: HostRuntime) {
    all_are_networks(
        &rt,
        &[
            (b"10.0.0.0", 32),
            (b"10.0.0.1/8", 8),
            (b"10.0.0.1/32", 32),
            (b"0.0.0.0/0", 0),
            (b"::1", 128),
            (b"::1/128", 128),
            (b"2001:db8::/99", 99),
            (b"::ffff:1.2.3.4/100", 100),
            (b"::/0", 0),
        ],
    );
    assert!(rt; Source::read(b"all") == Some(Source::All));
    are_no_rules(
        &rt,
        &[
            b"",
            b"All",
            b"unix:",
            b"10.0.0",
            b"010.0.0.1",
            b"10.0.0.0/",
            b"10.0.0.0/33",
            b"10.0.0.0/08",
            b"10.0.0.0/+8",
            b"10.0.0.0/8/8",
            b"10.0.0.0/264",
            b"/8",
            b"::1/129",
            b"::1/0x1",
            b"::1%1",
            b"[::1]",
        ],
    );
}

fn entry(alloc: Global, extension: &[u8], media_type: &[u8]) -> Result<TypeEntry, Fail> {
    Ok(TypeEntry {
        extension: ByteText::from_slice(alloc, extension)?,
        media_type: ByteText::from_slice(alloc, media_type)?,
    })
}

fn some_types(alloc: Global) -> Result<Types, Fail> {
    let mut entries = Vec::new(alloc);
    entries.push(entry(alloc, b"html", b"text/html")?)?;
    entries.push(entry(alloc, b"jpg", b"image/jpeg")?)?;
    entries.push(entry(alloc, b"gz", b"application/zip")?)?;
    entries.push(entry(alloc, b"GZ", b"application/gzip")?)?;
    let default_type = ByteText::from_slice(alloc, b"text/plain")?;
    Ok(Types::new(alloc, entries, default_type)?)
}

fn all_have_types(rt: &impl Abort, types: &Types, cases: &[(&[u8], &[u8])]) {
    for (path, expected) in cases {
        assert_eq!(rt; types.type_of(*path), *expected);
    }
}

#[test]
fn files_have_the_type_of_their_extension(rt: HostRuntime) -> Result<(), Fail> {
    let types = some_types(rt.alloc())?;
    all_have_types(
        &rt,
        &types,
        &[
            (b"/a/INDEX.HtMl", b"text/html"),
            (b"/a.gif/b.jpg", b"image/jpeg"),
            (b"/a.html/b", b"text/plain"),
            (b"/a.tar.gz", b"application/gzip"),
            (b"/a.gz.bak", b"text/plain"),
            (b"/html", b"text/plain"),
            (b"/.html", b"text/html"),
            (b"/a.", b"text/plain"),
            (b"", b"text/plain"),
        ],
    );
    assert_eq!(rt; extension(b"/a.b/c.d"), Some(b"d".as_slice()));
    Ok(())
}

#[test]
fn what_is_answered_for_a_file(rt: HostRuntime) {
    // The table is in rows; these run the code.
    assert_eq!(rt;
        decide(Node::Folder, &Method::Get, true),
        Content::Status(403)
    );
    assert_eq!(rt; decide(Node::Folder, &Method::Post, false), Content::Slash);
    assert_eq!(rt; refusal_of(&Method::Post), None);
}

fn text(alloc: Global, bytes: &[u8]) -> Result<ByteText, Fail> {
    Ok(ByteText::from_slice(alloc, bytes)?)
}

fn main_request(alloc: Global) -> Result<Main, Fail> {
    let end = Addr {
        ip: IpAddr::V4(Ipv4Addr::new(10, 0, 0, 1)),
        port: 80,
    };
    Ok(Main {
        asked: Method::Get,
        method: Method::Get,
        version: Version::V11,
        target: text(alloc, b"/q")?,
        host: text(alloc, b"h.x")?,
        server_name: text(alloc, b"s.x")?,
        local: end,
        peer: end,
        moment: 0,
        tree: 0,
        date: LocalDate::of(0),
        fields: HeadFields::new(alloc),
        folder: text(alloc, b"/etc//ngx")?,
    })
}

fn request(alloc: Global) -> Result<Request, Fail> {
    Ok(Request {
        method: Method::Get,
        path: text(alloc, b"/q")?,
        args: text(alloc, b"a=..")?,
        groups: Groups::new(alloc),
        place: None,
        role: Role::Main,
    })
}

/// The path of a file, `-` where there can be none, and `long` where the text is too long.
fn found(alloc: Global, place: &FileRoot, uri: &[u8]) -> Result<ByteText, Fail> {
    let main = main_request(alloc)?;
    let request = request(alloc)?;
    let mut vars = VarTable::new(alloc);
    vars.put(b"v", b"w")?;
    let mut path = ByteText::new(alloc);
    match path_of(alloc, place, uri, &main, &request, &vars, &mut path) {
        Ok(true) => Ok(path),
        Ok(false) => text(alloc, b"-"),
        Err(EvalFault::TooLong) => text(alloc, b"long"),
        Err(EvalFault::OutOfMemory) => text(alloc, b"no memory"),
    }
}

fn all_are_found(
    rt: &impl Abort,
    alloc: Global,
    cases: &[(&[u8], &[u8], &[u8])],
) -> Result<(), Fail> {
    for (root, uri, expected) in cases {
        let place = FileRoot::Root(Value::compile(alloc, *root)?);
        assert_eq!(rt; found(alloc, &place, *uri)?.as_slice(), *expected);
    }
    Ok(())
}

#[test]
fn files_are_under_their_root(rt: HostRuntime) -> Result<(), Fail> {
    all_are_found(
        &rt,
        rt.alloc(),
        &[
            (b"/www", b"/a/b", b"/www/a/b"),
            (b"/www/", b"//a//", b"/www/a"),
            (b"html", b"/a", b"/etc/ngx/html/a"),
            (b"/$v", b"/.a/b..", b"/w/.a/b.."),
            (b"/$arg_a", b"/a", b"-"),
            (b"/www", b"/a/..", b"-"),
            (b"/www", b"/./a", b"-"),
            (b"/www", b"/a\0", b"-"),
            (b"/www", b"/\xFF", b"-"),
            (b"/", b"/", b""),
        ],
    )
}

#[test]
fn texts_grow_and_queues_keep_their_order(rt: HostRuntime) -> Result<(), Fail> {
    let mut text = ByteText::from_slice(rt.alloc(), b"ab")?;
    text.reserve(8)?;
    text.extend(b"cd")?;
    text.push(b'e')?;
    text.truncate(4);
    assert_eq!(rt; text.as_slice(), b"abcd".as_slice());
    let copy = text.clone()?;
    text.clear();
    assert!(rt; text.is_empty());
    let mut texts = ByteTexts::new(rt.alloc());
    texts.push(copy)?;
    texts.push(ByteText::from_vec(text.into_vec()))?;
    assert_eq!(rt; ByteTexts::from_vec(texts.into_vec()).as_slice().len(), 2);
    let mut queue = ByteQueue::new(rt.alloc());
    queue.append(b"abcdef")?;
    queue.used(4);
    queue.append(b"gh")?;
    assert_eq!(rt; queue.front(), b"efgh".as_slice());
    let is_filled = queue.append_with(2, |room| {
        room.fill(b'i');
        true
    })?;
    assert!(rt; is_filled);
    assert_eq!(rt; queue.front(), b"efghii".as_slice());
    queue.clear();
    assert!(rt; queue.is_empty());
    Ok(())
}
