use byte_text::{ByteText, OutOfMemory};
use conf_check::{ReadError, check};
use conf_text::{ConfError, ConfFault, FaultKind, parse};
use ngx_pattern::CrateMaker;
use std::alloc::Global;
use std::process::Abort;
use std::test::Fail;

/// The first fault of a configuration, if there is one.
fn first_fault(alloc: Global, text: &[u8]) -> Result<Option<ConfFault>, OutOfMemory> {
    let directives = match parse(alloc, 0, text) {
        Ok(directives) => directives,
        Err(ConfError::Fault(fault)) => return Ok(Some(fault)),
        Err(ConfError::OutOfMemory) => return Err(OutOfMemory),
    };
    let mut maker = CrateMaker::new();
    match check(alloc, &mut maker, directives.as_slice()) {
        Ok(()) => Ok(None),
        Err(ReadError::Fault(fault)) => Ok(Some(fault)),
        Err(ReadError::TooBig(fault)) => Ok(Some(fault)),
        Err(ReadError::OutOfMemory) => Err(OutOfMemory),
    }
}

fn word_of(fault: &ConfFault) -> &[u8] {
    match &fault.word {
        None => b"",
        Some(word) => word.as_slice(),
    }
}

/// Each text is refused for a fault of this kind, in this line and of this directive.
fn are_refused(
    rt: &impl Abort,
    alloc: Global,
    kind: FaultKind,
    cases: &[(&[u8], u64, &[u8])],
) -> Result<(), Fail> {
    for (text, line, word) in cases {
        let fault = first_fault(alloc, *text)?.ok_or("a text with a fault")?;
        assert_eq!(rt; fault.kind as u8, kind as u8);
        assert_eq!(rt; fault.line, *line);
        assert_eq!(rt; word_of(&fault), *word);
    }
    Ok(())
}

fn have_no_fault(rt: &impl Abort, alloc: Global, texts: &[&[u8]]) -> Result<(), Fail> {
    for text in texts {
        assert!(rt; first_fault(alloc, *text)?.is_none());
    }
    Ok(())
}

#[test]
fn what_is_right_has_no_fault(rt: HostRuntime) -> Result<(), Fail> {
    have_no_fault(
        &rt,
        rt.alloc(),
        &[
            b"http { server { } }",
            b"user a; events { use epoll; } http { server { location /a { gzip_x 1; } listen [::]:81 default_server; listen 82; } }",
            b"http { root a$uri; server { location /a { alias b; } location /b { root ''; } } server { listen 81; root c; } }",
            b"http { types { m/n y Z; } keepalive_timeout 0 5m; server { default_type u/v; location / { keepalive_requests 7; } } }",
            b"http { server { return 404; location / { return 200 'a $uri'; return 201; } } }",
            b"http { server { } server { } }",
            b"http { allow 10.0.0.0/8; deny all; satisfy any; server { } }",
            b"http { auth_request /q; root $A$b; server { set $a 1; auth_request off; location / { auth_request_set $B $uri; } } }",
            b"http { client_max_body_size 5; recursive_error_pages on; error_page 404 =200 /e; server { index a; location /e { internal; try_files $uri =404; } } }",
            b"http { server { server_name a; } server { listen 80 default_server; server_name *.b c.* ''; merge_slashes off; } }",
            b"http { server { location ^~ /a { location /a/b { location = /a/b/c { } } } location = / { } location @d { } } }",
            b"http { server { server_name b ~x; location ~ x { location ~* /a { } } return 302; } }",
            b"http { ssi on; ssi_types a/b; ssi_silent_errors on; ssi_value_length 9; subrequest_output_buffer_size 9; server { } }",
            b"http { server { add_before_body /a; location / { addition_types *; add_after_body /b; } } }",
            b"http { server { set $a 1; rewrite ^ /b last; if ($a) { return 444; } location / { if ($a ~ b) { root c; break; } } } }",
        ],
    )
}

#[test]
fn other_names_are_unknown(rt: HostRuntime) -> Result<(), Fail> {
    are_refused(
        &rt,
        rt.alloc(),
        FaultKind::Unknown,
        &[
            (b"http { serve { } }", 1, b"serve"),
            (b"http { server { } }\nfoo;\nserver { }", 2, b"foo"),
            (b"http { server { foo { bar; } } }", 1, b"foo"),
            (b"http { server { gzipx; } }", 1, b"gzipx"),
            (b"http { server { index a; }\nserve { } }", 2, b"serve"),
        ],
    )
}

#[test]
fn directives_are_in_their_places(rt: HostRuntime) -> Result<(), Fail> {
    are_refused(
        &rt,
        rt.alloc(),
        FaultKind::NotHere,
        &[
            (b"server { }", 1, b"server"),
            (b"http {\nlocation / { } }", 2, b"location"),
            (b"events { http { } }", 1, b"http"),
            (b"http { server { if ($uri) { root b; } } }", 1, b"root"),
            (
                b"http { server { location / { if ($uri) { root b; index c; } } } }",
                1,
                b"index",
            ),
            (
                b"http { server { location /a {\nlocation @b { } } } }",
                2,
                b"location",
            ),
            (
                b"http { server { location = /a {\nlocation /b { } } } }",
                2,
                b"location",
            ),
            (
                b"http { server { location @a {\nlocation /b { } } } }",
                2,
                b"location",
            ),
        ],
    )
}

#[test]
fn words_and_blocks_are_counted(rt: HostRuntime) -> Result<(), Fail> {
    are_refused(
        &rt,
        rt.alloc(),
        FaultKind::Count,
        &[
            (b"http;", 1, b"http"),
            (b"http a { }", 1, b"http"),
            (b"http { server { listen; } }", 1, b"listen"),
            (b"http { server { return 200 a b; } }", 1, b"return"),
            (b"http { server { listen 80 { } } }", 1, b"listen"),
            (b"user { }", 1, b"user"),
            (b"http { types { a b; user;\nc { } } }", 1, b"user"),
            (b"http { types { a b;\nc d { } } }", 2, b"c"),
            (b"include a b;", 1, b"include"),
        ],
    )
}

#[test]
fn what_is_there_once_is_there_once(rt: HostRuntime) -> Result<(), Fail> {
    are_refused(
        &rt,
        rt.alloc(),
        FaultKind::Duplicate,
        &[
            (b"events { }\nevents { }", 2, b"events"),
            (
                b"http { send_timeout 1;\nsend_timeout 1; }",
                2,
                b"send_timeout",
            ),
            (b"http { } http { }", 1, b"http"),
            (b"http { root a; server { root b; }\nroot c; }", 2, b"root"),
            (
                b"http { server { listen 80;\nlisten *:80; } }",
                2,
                b"listen",
            ),
            (
                b"http { server { listen 0.0.0.0:80; listen 80 x; } }",
                1,
                b"listen",
            ),
            (
                b"http { server { listen [::1]:80; listen [0:0::1]:80; } }",
                1,
                b"listen",
            ),
            (
                b"http { server { location / { alias a; root b; } } }",
                1,
                b"root",
            ),
            (
                b"http { server { location /a { }\nlocation ^~ /a { } } }",
                2,
                b"location",
            ),
            (
                b"http { server { location = /a { } location /a { } location = /a { } } }",
                1,
                b"location",
            ),
            (
                b"http { server { listen 80 default_server; }\nserver { listen 80 default_server; } }",
                2,
                b"listen",
            ),
        ],
    )
}

#[test]
fn values_are_looked_at(rt: HostRuntime) -> Result<(), Fail> {
    are_refused(
        &rt,
        rt.alloc(),
        FaultKind::BadValue,
        &[
            (b"http { server { listen 80 x; } }", 1, b"listen"),
            (b"http { server { listen 0; } }", 1, b"listen"),
            (b"http { server { listen 65536; } }", 1, b"listen"),
            (b"http { server { listen 080; } }", 1, b"listen"),
            (b"http { server { listen a:80; } }", 1, b"listen"),
            (b"http { server { listen [::1]80; } }", 1, b"listen"),
            (b"http { server { listen 1.2.3:80; } }", 1, b"listen"),
            (b"http { server { return 199; } }", 1, b"return"),
            (b"http { server { return 600 a; } }", 1, b"return"),
            (b"http { server { return ok; } }", 1, b"return"),
            (
                b"http { server { root a; location / { return 2000; } } }",
                1,
                b"return",
            ),
            (b"http { server { location ! /a { } } }", 1, b"location"),
            (b"http { root $document_root/a; }", 1, b"root"),
            (
                b"http { server { location / { alias ${request_filename}; } } }",
                1,
                b"alias",
            ),
            (b"http { root $a;\nserver { set $b 1; } }", 1, b"root"),
            (b"http { types { set $a; } root $a; }", 1, b"root"),
            (b"http { server { return 200 $; } }", 1, b"return"),
            (b"http { server { return http://$a; } }", 1, b"return"),
            (b"http { keepalive_requests 0; }", 1, b"keepalive_requests"),
            (
                b"http { keepalive_requests 1000000001; }",
                1,
                b"keepalive_requests",
            ),
            (
                b"http { keepalive_timeout 12725830d; }",
                1,
                b"keepalive_timeout",
            ),
            (b"http { keepalive_timeout 1 ms; }", 1, b"keepalive_timeout"),
            (
                b"http { client_max_body_size 1025g; }",
                1,
                b"client_max_body_size",
            ),
            (b"http { absolute_redirect yes; }", 1, b"absolute_redirect"),
            (b"http { satisfy none; }", 1, b"satisfy"),
            (b"http { ssi_value_length 0; }", 1, b"ssi_value_length"),
            (b"http { send_timeout 1w; }", 1, b"send_timeout"),
            (b"http { server { server_name a *b; } }", 1, b"server_name"),
            (b"http { allow 10.0.0.0/33; }", 1, b"allow"),
            (b"http { deny host; }", 1, b"deny"),
            (b"http { ssi_visible $host $nope; }", 1, b"ssi_visible"),
        ],
    )
}

#[test]
fn a_server_is_asked_for(rt: HostRuntime) -> Result<(), Fail> {
    are_refused(
        &rt,
        rt.alloc(),
        FaultKind::NoServer,
        &[(b"", 1, b""), (b"\nhttp { root a; }", 1, b"")],
    )
}

/// A number below 1000 in decimals.
fn number_onto(out: &mut ByteText, number: u64) -> Result<(), OutOfMemory> {
    out.push(b'0' + (number / 100 % 10) as u8)?;
    out.push(b'0' + (number / 10 % 10) as u8)?;
    out.push(b'0' + (number % 10) as u8)?;
    Ok(())
}

#[test]
fn a_long_level_is_read(rt: HostRuntime) -> Result<(), Fail> {
    let mut text = ByteText::from_slice(rt.alloc(), b"http { server {\n")?;
    for _ in 0..1000 {
        text.extend(b"gzip_types a;\n")?;
    }
    for port in 100..1000 {
        text.extend(b"listen 10.0.0.1:")?;
        number_onto(&mut text, port)?;
        text.extend(b";\n")?;
    }
    text.extend(b"listen 10.0.0.2:100;\nlisten 10.0.0.1:170; } }")?;
    let fault = first_fault(rt.alloc(), text.as_slice())?.ok_or("a text with a fault")?;
    assert_eq!(rt; fault.line, 1903);
    Ok(())
}
