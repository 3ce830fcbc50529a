use byte_text::{ByteText, OutOfMemory};
use conf_text::{ConfError, Directives, parse, split_block};
use std::alloc::Global;
use std::process::Abort;
use std::test::Fail;

fn put_number(out: &mut ByteText, number: u64) -> Result<(), OutOfMemory> {
    out.push(b'0' + (number / 10 % 10) as u8)?;
    out.push(b'0' + (number % 10) as u8)?;
    Ok(())
}

/// The directives as `DEPTH LINE name|arg|..` with `;` or `{` after each, or a fault as `!KIND LINE`.
fn shown(alloc: Global, text: &[u8]) -> Result<ByteText, OutOfMemory> {
    let mut out = ByteText::new(alloc);
    match parse(alloc, 7, text) {
        Ok(directives) => {
            for directive in directives.as_slice() {
                put_number(&mut out, u64::from(directive.depth))?;
                put_number(&mut out, directive.line)?;
                out.extend(directive.name.as_slice())?;
                for arg in directive.args.as_slice() {
                    out.push(b'|')?;
                    out.extend(arg.as_slice())?;
                }
                out.push(if directive.block { b'{' } else { b';' })?;
            }
        }
        Err(ConfError::Fault(fault)) => {
            out.push(b'!')?;
            put_number(&mut out, u64::from(fault.kind as u8))?;
            put_number(&mut out, fault.line)?;
        }
        Err(ConfError::OutOfMemory) => return Err(OutOfMemory),
    }
    Ok(out)
}

/// Each text is shown as this.
fn all_are_shown(rt: &impl Abort, alloc: Global, cases: &[(&[u8], &[u8])]) -> Result<(), Fail> {
    for (text, expected) in cases {
        let found = shown(alloc, *text)?;
        assert_eq!(rt; found.as_slice(), *expected);
    }
    Ok(())
}

#[test]
fn words_are_those_of_the_documentation(rt: HostRuntime) -> Result<(), Fail> {
    all_are_shown(
        &rt,
        rt.alloc(),
        &[
            (b"", b""),
            (b" \t\r\n# a { ; }", b""),
            (b"a b;c{d;}e;", b"0001a|b;0001c{0101d;0001e;"),
            (b"\n\na\n b;\n\nc;", b"0003a|b;0006c;"),
            (b"a#b #c;\nd;#e\nf;", b"0001a#b|d;0003f;"),
            (b"a \"b c\" 'd\"e' \"\";", b"0001a|b c|d\"e|;"),
            (b"\"a b\" c;", b"0001a b|c;"),
            (
                b"a \"x\\ty\\\"z\\q\" '\\\\\\r\\n';",
                b"0001a|x\ty\"z\\q|\\\r\n;",
            ),
            (b"a \\;b \\t\\\"c;", b"0001a|\\;b|\t\"c;"),
            (b"return 200 ${uri}x;", b"0001return|200|${uri}x;"),
            (b"a $uri{b;}", b"0001a|$uri{0101b;"),
            (b"a \\${b;}", b"0001a|\\${0101b;"),
            (b"a $${b;", b"0001a|$${b;"),
            (b"if ($x = \"b\"){c;}", b"0001if|($x|=|b|){0101c;"),
            (b"a}b c;", b"0001a}b|c;"),
            (b"a\rb\tc\n;", b"0001a|b|c;"),
            (b"a \"b\nc\" d;e;", b"0001a|b\nc|d;0002e;"),
            (b"a \\\nb;c;", b"0001a|\\\nb;0002c;"),
            (b"a \x00\xff\xc3;", b"0001a|\x00\xff\xc3;"),
            (b"a{b{c;}d{}}", b"0001a{0101b{0201c;0101d{"),
            (b"a{}b;", b"0001a{0001b;"),
        ],
    )
}

#[test]
fn the_first_fault_is_told_with_its_line(rt: HostRuntime) -> Result<(), Fail> {
    all_are_shown(
        &rt,
        rt.alloc(),
        &[
            (b"a", b"!0101"),
            (b"a;\nb\n", b"!0103"),
            (b"a;\nb {\n", b"!0103"),
            (b"a \"b\n;", b"!0102"),
            (b"a 'b;", b"!0101"),
            (b"a \"b\"", b"!0101"),
            (b"a b\\", b"!0101"),
            (b"a;\n}", b"!0202"),
            (b"a{b;}\n}", b"!0202"),
            (b"a }", b"!0201"),
            (b"a{b }", b"!0201"),
            (b"{", b"!0201"),
            (b"a;{b;}", b"!0201"),
            (b";", b"!0301"),
            (b"a;\n;\n", b"!0302"),
            (b"a{;}", b"!0301"),
            (b"a\n\"b\"c;", b"!0502"),
            (b"a \"b\"\"c\";", b"!0501"),
            (b"a \"b\"}", b"!0501"),
            (b"a \"b\"#c;", b"!0501"),
            (b"a \"b\"\\", b"!0501"),
            (b"a \"b\"c;}", b"!0501"),
            (b"}\"a\"b", b"!0201"),
            (b"a{b{c", b"!0101"),
        ],
    )
}

/// A text of this many times `piece`, between two others.
fn repeated(
    alloc: Global,
    before: &[u8],
    piece: &[u8],
    count: u32,
    after: &[u8],
) -> Result<ByteText, OutOfMemory> {
    let mut text = ByteText::from_slice(alloc, before)?;
    for _ in 0..count {
        text.extend(piece)?;
    }
    text.extend(after)?;
    Ok(text)
}

/// Each text of this many times a piece, between two others, has this fault.
fn all_are_too_long(
    rt: &impl Abort,
    alloc: Global,
    cases: &[(&[u8], &[u8], u32, &[u8], &[u8])],
) -> Result<(), Fail> {
    for (before, piece, count, after, fault) in cases {
        let text = repeated(alloc, *before, *piece, *count, *after)?;
        let found = shown(alloc, text.as_slice())?;
        assert_eq!(rt; found.as_slice(), *fault);
    }
    Ok(())
}

#[test]
fn a_word_and_a_nest_have_their_limits(rt: HostRuntime) -> Result<(), Fail> {
    let alloc = rt.alloc();
    all_are_too_long(
        &rt,
        alloc,
        &[
            (b"a \"", b"\\\"", 4097, b"\";", b"!0401"),
            (b"a ", b"\\q", 2049, b";", b"!0401"),
            (b"a ", b"x", 4097, b";", b"!0401"),
            (b"a '\n", b"x", 4096, b"';", b"!0402"),
            (b"a '", b"x", 5000, b"", b"!0401"),
            (b"", b"a {", 33, b"", b"!1901"),
            (b"", b"a {", 32, b"{", b"!0201"),
            (b"", b"a {\n", 32, b"", b"!0133"),
        ],
    )?;
    let long = repeated(alloc, b"a ", b"\\\\", 4096, b";")?;
    assert_eq!(rt; shown(alloc, long.as_slice())?.len(), 4103);
    let deep = repeated(alloc, b"", b"a {", 32, b"b;")?;
    let whole = repeated(alloc, deep.as_slice(), b"}", 32, b"")?;
    assert_eq!(rt; shown(alloc, whole.as_slice())?.len(), 6 * 33);
    Ok(())
}

#[test]
fn blocks_follow_their_directives(rt: HostRuntime) -> Result<(), Fail> {
    let directives = parse(rt.alloc(), 3, b"a{b{c;}d;}e;")?;
    assert_eq!(rt; directives.len(), 5);
    assert!(rt; !directives.is_empty());
    let lines = directives.as_slice();
    assert_eq!(rt; lines[0].file, 3);
    let (block, after) = split_block(lines[0].depth, &lines[1..]);
    assert_eq!(rt; block.len(), 3);
    assert_eq!(rt; after.len(), 1);
    let mut copy = Directives::new(rt.alloc());
    for directive in Directives::from_vec(directives.into_vec()).as_slice() {
        copy.push(directive.clone()?)?;
    }
    assert_eq!(rt; copy.len(), 5);
    Ok(())
}

/// Words of the configuration that Debian's package brings, and in a site's.
const MAIN: &[u8] = b"user www-data;
worker_processes auto;
include /etc/nginx/modules-enabled/*.conf;

events {
\tworker_connections 768;
\t# multi_accept on;
}

http {
\t##
\t# Basic Settings
\t##
\tsendfile on;
\tssl_protocols TLSv1 TLSv1.1; # Dropping SSLv3, ref: POODLE
\tinclude /etc/nginx/sites-enabled/*;
}
#mail {
#}
";

const SITE: &[u8] = b"server {
\tlisten 80 default_server;
\tlisten [::]:80 default_server;
\troot /var/www/html;
\tindex index.html index.htm;
\tserver_name _;
\tlocation / {
\t\ttry_files $uri $uri/ =404;
\t}
\t#location ~ \\.php$ {
\tlocation ~ /\\.ht {
\t\tdeny all;
\t}
}
";

#[test]
fn the_configuration_of_a_package_is_read(rt: HostRuntime) -> Result<(), Fail> {
    let main = shown(rt.alloc(), MAIN)?;
    let lines: [&[u8]; 8] = [
        b"0001user|www-data;",
        b"0002worker_processes|auto;",
        b"0003include|/etc/nginx/modules-enabled/*.conf;",
        b"0005events{0106worker_connections|768;",
        b"0010http{",
        b"0114sendfile|on;",
        b"0115ssl_protocols|TLSv1|TLSv1.1;",
        b"0116include|/etc/nginx/sites-enabled/*;",
    ];
    assert_eq!(rt; main.as_slice(), lines.concat(rt.alloc())?.as_slice());
    let site = shown(rt.alloc(), SITE)?;
    let lines: [&[u8]; 8] = [
        b"0001server{0102listen|80|default_server;",
        b"0103listen|[::]:80|default_server;",
        b"0104root|/var/www/html;",
        b"0105index|index.html|index.htm;",
        b"0106server_name|_;",
        b"0107location|/{",
        b"0208try_files|$uri|$uri/|=404;",
        b"0111location|~|/\\.ht{0212deny|all;",
    ];
    assert_eq!(rt; site.as_slice(), lines.concat(rt.alloc())?.as_slice());
    Ok(())
}
