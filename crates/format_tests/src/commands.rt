use addition_filter::AdditionFilter;
use byte_text::{ByteText, OutOfMemory};
use filter_api::{BodyFilter, Chain, Facts};
use ssi_filter::SsiFilter;
use ssi_text::{Name, Param, Params, Part, SsiState};
use std::alloc::Global;
use std::process::Abort;
use std::test::Fail;

/// Parts in a row: text as it is, `{name|parameter=value}` for a command, `{}` for a bad one.
fn shown(alloc: Global, parts: &[Part]) -> Result<ByteText, OutOfMemory> {
    let mut text = ByteText::new(alloc);
    for part in parts {
        match part {
            Part::Text(bytes) => text.extend(bytes.as_slice())?,
            Part::Command { name, params } => {
                text.push(b'{')?;
                text.extend(name.as_slice())?;
                for param in params.as_slice() {
                    text.push(b'|')?;
                    text.extend(param.name.as_slice())?;
                    text.push(b'=')?;
                    text.extend(param.value.as_slice())?;
                }
                text.push(b'}')?;
            }
            Part::Bad => text.extend(b"{}")?,
            Part::Before => text.extend(b"<before>")?,
            Part::After => text.extend(b"<after>")?,
        }
    }
    Ok(text)
}

/// The parts of a document that comes in blocks of this size, and in a first block of that.
fn split(
    alloc: Global,
    document: &[u8],
    first: usize,
    size: usize,
) -> Result<ByteText, OutOfMemory> {
    let mut state = SsiState::new(alloc);
    let mut out = Vec::new(alloc);
    let cut = first.min(document.len());
    let begin = ByteText::from_slice(alloc, &document[..cut])?;
    state.feed_text(alloc, begin, &mut out)?;
    let mut state = SsiState::from_undecided(alloc, state.undecided())?;
    for block in document[cut..].chunks(size.max(1)) {
        state.feed(alloc, block, &mut out)?;
    }
    state.end(alloc, &mut out)?;
    shown(alloc, out.as_slice())
}

/// Each document splits into these parts, wherever it is cut first and whether it comes in bytes from there on.
fn all_split(rt: &impl Abort, alloc: Global, cases: &[(&[u8], &[u8])]) -> Result<(), Fail> {
    for (document, expected) in cases {
        for first in 0..document.len() {
            let whole = split(alloc, *document, first, document.len())?;
            assert_eq!(rt; whole.as_slice(), *expected);
            let bytes = split(alloc, *document, first, 1)?;
            assert_eq!(rt; bytes.as_slice(), *expected);
        }
    }
    Ok(())
}

#[test]
fn a_document_splits_alike_in_any_pieces(rt: HostRuntime) -> Result<(), Fail> {
    all_split(
        &rt,
        rt.alloc(),
        &[
            (
                b"A<!--# include virtual=\"/b.html\" -->C",
                b"A{include|virtual=/b.html}C",
            ),
            (b"<!--#echo var='uri'-->", b"{echo|var=uri}"),
            (
                b"<!--# Set VAR=\"n\" Value=\"a-->b\" -->",
                b"{set|var=n|value=a-->b}",
            ),
            (
                b"<!--# if expr=\"\\\"\\\\\\x'\" -->x",
                b"{if|expr=\"\\\\x'}x",
            ),
            (b"a<!--# else -->b<!--#\tendif\r\n-->", b"a{else}b{endif}"),
            (b"<!-- a comment --><!--", b"<!-- a comment --><!--"),
            (b"<<!--#a--><!--#b--->", b"<{a}{b-}"),
            (b"<!--#-->x<!--# -->y", b"{}x{}y"),
            (b"<!--# a b -->", b"{}"),
            (b"<!--# a b=c -->", b"{}"),
            (b"<!--# a b=\"c\"d=\"e\" -->", b"{}"),
            (b"<!--# a b=\"-->", b"<!--# a b=\"-->"),
            (b"<!--# a b=\"\\\"-->\" -->", b"{a|b=\"-->}"),
            (b"<!--#open", b"<!--#open"),
        ],
    )
}

/// `<!--#`, `count` times `x`, and then these bytes.
fn long_command(alloc: Global, count: usize, behind: &[u8]) -> Result<ByteText, OutOfMemory> {
    let mut text = ByteText::from_slice(alloc, b"<!--#")?;
    for _ in 0..count {
        text.push(b'x')?;
    }
    text.extend(behind)?;
    Ok(text)
}

#[test]
fn a_command_has_at_most_8192_bytes(rt: HostRuntime) -> Result<(), Fail> {
    let alloc = rt.alloc();
    let ends = long_command(alloc, 8184, b"-->yz")?;
    assert_eq!(rt; split(alloc, ends.as_slice(), 1000, 4096)?.len(), 8184 + 4);
    let late = long_command(alloc, 8187, b"yz")?;
    assert_eq!(rt;
        split(alloc, late.as_slice(), 8191, 1)?.as_slice(),
        b"{}yz".as_slice()
    );
    let one_more = long_command(alloc, 8185, b"-->")?;
    assert_eq!(rt;
        split(alloc, one_more.as_slice(), 100, 16384)?.as_slice(),
        b"{}>".as_slice()
    );
    let open = long_command(alloc, 8186, b"")?;
    assert_eq!(rt; split(alloc, open.as_slice(), 5, 1000)?.len(), 8191);
    Ok(())
}

#[test]
fn parameters_are_given_back(rt: HostRuntime) -> Result<(), Fail> {
    let mut params = Params::new(rt.alloc());
    assert!(rt; params.is_empty());
    params.push(Param {
        name: Name::lowercase(rt.alloc(), b"")?,
        value: ByteText::new(rt.alloc()),
    })?;
    assert_eq!(rt; Params::from_vec(params.into_vec()).len(), 1);
    Ok(())
}

/// What comes out of both filters where a document comes in two pieces.
fn turned(
    alloc: Global,
    facts: &Facts,
    first: &[u8],
    rest: &[u8],
) -> Result<ByteText, OutOfMemory> {
    let mut members: Vec<Box<dyn BodyFilter>> = Vec::new(alloc);
    members.push(Box::new(alloc, SsiFilter)?)?;
    members.push(Box::new(alloc, AdditionFilter)?)?;
    let Ok(chain) = Chain::new(members) else {
        return Ok(ByteText::new(alloc));
    };
    let mut parts = Vec::new(alloc);
    parts.push(Part::Text(ByteText::from_slice(alloc, first)?))?;
    parts.push(Part::Text(ByteText::from_slice(alloc, rest)?))?;
    let mut out = Vec::new(alloc);
    chain.turn(alloc, facts, parts, &mut out)?;
    shown(alloc, out.as_slice())
}

#[test]
fn a_document_goes_through_the_filters_in_any_pieces(rt: HostRuntime) -> Result<(), Fail> {
    let alloc = rt.alloc();
    let mut facts = Facts {
        ssi: true,
        ssi_type: true,
        before: true,
        after: false,
        addition_type: true,
        status: 200,
        main: true,
    };
    let document = b"ba<!--# Echo var=\"-->\" -->na<!--# = --><!-".as_slice();
    for at in 0..document.len() {
        let text = turned(alloc, &facts, &document[..at], &document[at..])?;
        assert_eq!(rt;
            text.as_slice(),
            b"<before>ba{echo|var=-->}na{}<!-<after>".as_slice()
        );
    }
    facts.ssi_type = false;
    facts.status = 404;
    let text = turned(alloc, &facts, b"a<!--# ec", b"ho -->")?;
    assert_eq!(rt; text.as_slice(), b"a<!--# echo -->".as_slice());
    Ok(())
}
