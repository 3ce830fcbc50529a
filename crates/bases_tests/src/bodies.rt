// The bodies of pages on which filters act: whole, and cut in two anywhere.
use crate::samples::{level, main_request, request, text};
use crate::sites::{server, site};
use byte_text::ByteText;
use filter_api::Facts;
use ngx_variables::VarTable;
use page_body::{Doing, Page};
use ssi_exec::Scene;
use ssi_values::Table;
use std::alloc::Global;
use std::process::Abort;
use std::test::Fail;

/// Facts of a body on which `ssi` acts, or additions, or both.
fn facts(splits: bool, adds: bool) -> Facts {
    Facts {
        ssi: splits,
        ssi_type: splits,
        before: adds,
        after: adds,
        addition_type: adds,
        status: 200,
        main: true,
    }
}

/// What the parts that wait come to: texts, `{path}` where a subrequest is, and `[path]` where one is captured, whose
/// body is `c`.
fn done(
    alloc: Global,
    page: &mut Page,
    scene: &Scene<'_>,
    vars: &VarTable,
    out: &mut ByteText,
) -> Result<bool, Fail> {
    for _ in 0..100 {
        match page.next(alloc, scene, vars)? {
            Doing::Nothing => {}
            Doing::Writes(text) => out.extend(text.as_slice())?,
            Doing::Includes(child) => {
                out.push(b'{')?;
                out.extend(child.path.as_slice())?;
                out.push(b'}')?;
            }
            Doing::Captures { name, child } => {
                out.push(b'[')?;
                out.extend(child.path.as_slice())?;
                out.push(b']')?;
                let body = text(alloc, b"c")?;
                let written = page.captured(alloc, scene, name.as_slice(), body)?;
                if let Some(text) = written {
                    out.extend(text.as_slice())?;
                }
            }
            Doing::NeedsMore => return Ok(false),
            Doing::Over => return Ok(true),
        }
    }
    Err("a page that doesn't end")?
}

/// What a document comes to that comes in these two blocks.
fn page_of(
    rt: &impl Abort,
    alloc: Global,
    facts: &Facts,
    blocks: &[&[u8]],
) -> Result<ByteText, Fail> {
    let main = main_request(alloc)?;
    let request = request(alloc)?;
    let site = site(alloc)?;
    let server = server(alloc)?;
    let mut level = level(alloc)?;
    level.before = Some(text(alloc, b"/b")?);
    level.after = Some(text(alloc, b"/a")?);
    let scene = Scene {
        main: &main,
        request: &request,
        site: &site,
        level: &level,
        server: &server,
        left: 50,
    };
    let vars = VarTable::new(alloc);
    let mut out = ByteText::new(alloc);
    let mut page = Page::new(alloc, facts, Table::new(alloc))?;
    assert!(rt; !done(alloc, &mut page, &scene, &vars, &mut out)?);
    for block in blocks {
        if page.waits() {
            return Err("parts wait")?;
        }
        page.feed(alloc, ByteText::from_slice(alloc, block)?)?;
        assert!(rt; !done(alloc, &mut page, &scene, &vars, &mut out)?);
    }
    if page.waits() {
        return Err("parts wait")?;
    }
    page.finish(alloc)?;
    assert!(rt; done(alloc, &mut page, &scene, &vars, &mut out)?);
    Ok(out)
}

/// The document comes to this, whole, cut in two at each byte, and byte by byte.
fn pages_are(
    rt: &impl Abort,
    alloc: Global,
    facts: &Facts,
    document: &[u8],
    expected: &[u8],
) -> Result<(), Fail> {
    for at in 0..document.len() {
        let (first, second) = document.split_at(at);
        let page = page_of(rt, alloc, facts, &[first, second])?;
        assert!(rt; page.as_slice() == expected);
    }
    let page = page_of(rt, alloc, facts, &[document])?;
    assert!(rt; page.as_slice() == expected);
    Ok(())
}

const DOCUMENT: &[u8] = b"ab<!--#set var=\"v\" value=\"<x>\" --><!--#echo var=\"v\" -->\
    <!--#if expr=\"$v = y\" -->no<!--#else -->yes<!--#endif --><!--#include virtual=\"/i\" -->c\
    <!--#include virtual=\"k\" set=\"w\" --><!--#echo var=\"w\" --><!--#bad --><!--";

#[test]
fn a_page_comes_out_the_same_wherever_it_is_cut(rt: HostRuntime) -> Result<(), Fail> {
    let alloc = rt.alloc();
    pages_are(
        &rt,
        alloc,
        &facts(true, true),
        DOCUMENT,
        b"{/b}ab&lt;x&gt;yes{/i}c[/d/k]c[an error occurred while processing the directive]<!--{/a}",
    )?;
    pages_are(&rt, alloc, &facts(true, false), b"a<!--#", b"a<!--#")
}

#[test]
fn additions_stand_around_a_body_that_isn_t_split(rt: HostRuntime) -> Result<(), Fail> {
    let alloc = rt.alloc();
    pages_are(
        &rt,
        alloc,
        &facts(false, true),
        b"a<!--#echo var=\"v\" -->b",
        b"{/b}a<!--#echo var=\"v\" -->b{/a}",
    )?;
    pages_are(&rt, alloc, &facts(false, true), b"", b"{/b}{/a}")
}
