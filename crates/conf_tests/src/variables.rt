use byte_text::{ByteText, OutOfMemory};
use http_moment::LocalDate;
use http_types::{Addr, Method, Version};
use ngx_variables::{
    FileRoot, Groups, Main, Request, Role, Value, ValueFault, VarTable, is_builtin,
};
use req_head::{HeadFields, HeadStep, read_head};
use std::alloc::Global;
use std::net::{IpAddr, Ipv4Addr, Ipv6Addr};
use std::process::Abort;
use std::test::Fail;

/// What a text is evaluated with.
#[derive(Drop)]
struct World {
    main: Main,
    request: Request,
    vars: VarTable,
}

/// A main request of empty texts.
fn empty_main(alloc: Global) -> Main {
    Main {
        asked: Method::Get,
        method: Method::Get,
        version: Version::V11,
        target: ByteText::new(alloc),
        host: ByteText::new(alloc),
        server_name: ByteText::new(alloc),
        local: Addr {
            ip: IpAddr::V4(Ipv4Addr::new(10, 0, 0, 1)),
            port: 80,
        },
        peer: Addr {
            ip: IpAddr::V6(Ipv6Addr::new(0x2001, 0xdb8, 0, 0, 0, 0, 0, 1)),
            port: 40000,
        },
        moment: 0,
        tree: 0,
        date: LocalDate::of(0),
        fields: HeadFields::new(alloc),
        folder: ByteText::new(alloc),
    }
}

fn empty_world(alloc: Global) -> World {
    World {
        main: empty_main(alloc),
        request: Request {
            method: Method::Get,
            path: ByteText::new(alloc),
            args: ByteText::new(alloc),
            groups: Groups::new(alloc),
            place: None,
            role: Role::Main,
        },
        vars: VarTable::new(alloc),
    }
}

// The texts are written into what is there already, so that no call has anything to let go where memory runs out.

fn write_main(main: &mut Main) -> Result<(), OutOfMemory> {
    main.target.extend(b"http://H.x:1/q?a=1")?;
    main.host.extend(b"h.x")?;
    main.server_name.extend(b"s.x")?;
    main.folder.extend(b"/etc/ngx")
}

/// The fields of a head.
fn some_fields(alloc: Global) -> Result<HeadFields, Fail> {
    let bytes =
        b"GET / HTTP/1.0\r\nx-a: 1\r\ncookie: a=1;  B=2 ; c=3\r\nX-A: 2\r\ncookie: d=4\r\nContent-Type: text/plain\r\n\r\n";
    match read_head(alloc, bytes)? {
        HeadStep::Head { head, .. } => Ok(head.fields.copy(alloc)?),
        _ => Err("no head")?,
    }
}

fn write_request(request: &mut Request) -> Result<(), OutOfMemory> {
    request.path.extend(b"/i//x.html")?;
    request.args.extend(b"b&a=1&A=2&c=")?;
    request.groups.push(b"one")?;
    request.groups.push(b"two")
}

/// The place of an alias, copied once.
fn alias(alloc: Global) -> Result<FileRoot, Fail> {
    let text = Value::compile(alloc, b"docs/$v/")?;
    let place = FileRoot::Rest {
        text,
        prefix: ByteText::from_slice(alloc, b"/i/")?,
    };
    Ok(place.copy(alloc)?)
}

fn put_variables(vars: &mut VarTable) -> Result<(), OutOfMemory> {
    vars.put(b"v", b"old")?;
    vars.put(b"w", b"y")?;
    vars.put(b"v", b"z")
}

fn fill(alloc: Global, world: &mut World) -> Result<(), Fail> {
    write_main(&mut world.main)?;
    world.main.fields = some_fields(alloc)?;
    write_request(&mut world.request)?;
    world.request.place = Some(alias(alloc)?);
    put_variables(&mut world.vars)?;
    Ok(())
}

fn evaluated(alloc: Global, world: &World, text: &[u8]) -> Result<ByteText, Fail> {
    let value = Value::compile(alloc, text)?;
    let mut out = ByteText::new(alloc);
    value.eval(alloc, &world.main, &world.request, &world.vars, &mut out)?;
    Ok(out)
}

fn has_text(
    rt: &impl Abort,
    alloc: Global,
    world: &World,
    text: &[u8],
    wanted: &[u8],
) -> Result<(), Fail> {
    let out = evaluated(alloc, world, text)?;
    assert_eq!(rt; out.as_slice(), wanted);
    Ok(())
}

/// Texts with variables, each with what it is evaluated to.
const TEXTS: [(&[u8], &[u8]); 23] = [
    (b"", b""),
    (b"a b", b"a b"),
    (b"<$uri|${DOCUMENT_URI}>", b"</i//x.html|/i//x.html>"),
    (b"$args $query_string", b"b&a=1&A=2&c= b&a=1&A=2&c="),
    (b"$is_args$arg_A|$arg_b|$arg_c|$arg_d", b"?1|||"),
    (b"$document_root", b"docs/z/"),
    (b"$request_filename", b"/etc/ngx/docs/z/x.html"),
    (b"$1x$2$3", b"onextwo"),
    (b"$12", b"one2"),
    (b"$request_uri", b"/q?a=1"),
    (b"$request_method $server_protocol", b"GET HTTP/1.1"),
    (b"$request", b"GET http://H.x:1/q?a=1 HTTP/1.1"),
    (b"$host$server_name", b"h.xs.x"),
    (b"$http_x_a", b"1, 2"),
    (b"$http_y", b""),
    (b"$cookie_a$cookie_b$cookie_d$cookie_e", b"124"),
    (b"$content_type$content_length", b"text/plain"),
    (b"$remote_addr", b"2001:db8::1"),
    (b"$remote_port", b"40000"),
    (b"$server_addr:$server_port", b"10.0.0.1:80"),
    (b"$scheme$https", b"http"),
    (b"$date_gmt", b"Thursday, 01-Jan-1970 00:00:00 GMT"),
    (b"$v$w$u", b"zy"),
];

fn all_have_their_texts(rt: &impl Abort, alloc: Global, world: &mut World) -> Result<(), Fail> {
    fill(alloc, world)?;
    for (text, wanted) in &TEXTS {
        has_text(rt, alloc, world, text, wanted)?;
    }
    Ok(())
}

#[test]
fn every_variable_has_its_text(rt: HostRuntime) -> Result<(), Fail> {
    let mut world = empty_world(rt.alloc());
    all_have_their_texts(&rt, rt.alloc(), &mut world)
}

fn is_refused(rt: &impl Abort, alloc: Global, text: &str, wanted: ValueFault) {
    match Value::compile(alloc, text.as_bytes()) {
        Ok(_) => assert!(rt; false, "{text} was read"),
        Err(fault) => assert_eq!(rt; fault, wanted),
    }
}

#[test]
fn a_bad_text_is_refused(rt: HostRuntime) -> Result<(), Fail> {
    for text in "$\na$-b\n${}\n${a b}\n$$".lines() {
        is_refused(&rt, rt.alloc(), text, ValueFault::BadName);
    }
    for text in "${a\n${a$".lines() {
        is_refused(&rt, rt.alloc(), text, ValueFault::Unclosed);
    }
    assert!(rt; is_builtin(b"arg_x"));
    assert!(rt; !is_builtin(b"arg_"));
    Ok(())
}
