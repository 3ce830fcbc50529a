use crate::samples::{main_request, request, value};
use byte_text::ByteText;
use error_pages::{Handling, PageStep, page_for};
use ngx_variables::VarTable;
use site_model::{PageRule, PageTarget, Shown};
use std::alloc::Global;
use std::process::Abort;
use std::test::Fail;

fn rules(alloc: Global) -> Result<Vec<PageRule>, Fail> {
    let mut codes = Vec::new(alloc);
    codes.push(302)?;
    codes.push(404)?;
    let mut rules = Vec::new(alloc);
    rules.push(PageRule {
        codes,
        shown: Shown::Fixed(303),
        target: PageTarget::Path(value(alloc, b"/e$uri?$args")?),
    })?;
    let mut codes = Vec::new(alloc);
    codes.push(500)?;
    rules.push(PageRule {
        codes,
        shown: Shown::Fixed(303),
        target: PageTarget::Url(value(alloc, b"http://x$v")?),
    })?;
    Ok(rules)
}

/// For each code, whether an error was handled, and how many changes are left, whether there is a page.
fn pages_are(
    rt: &impl Abort,
    alloc: Global,
    rules: &[PageRule],
    cases: &[(u16, bool, u8, bool)],
) -> Result<(), Fail> {
    let main = main_request(alloc)?;
    let request = request(alloc)?;
    let vars = VarTable::new(alloc);
    for (code, used, changes, expected) in cases {
        let handling = Handling {
            used: *used,
            recursive: false,
            changes: *changes,
        };
        let step = page_for(alloc, rules, *code, handling, &main, &request, &vars)?;
        assert_eq!(rt; step.is_some(), *expected);
    }
    Ok(())
}

#[test]
fn an_error_goes_to_its_page_once(rt: HostRuntime) -> Result<(), Fail> {
    let alloc = rt.alloc();
    let rules = rules(alloc)?;
    pages_are(
        &rt,
        alloc,
        rules.as_slice(),
        &[
            (404, false, 1, true),
            (404, true, 1, false),
            (404, false, 0, false),
            (302, false, 1, false),
            (403, false, 1, false),
            (500, false, 10, true),
        ],
    )
}

/// The length of the address that the page of 500 has, where `$v` has `size` bytes; none where there is no page.
fn address_len(alloc: Global, size: usize) -> Result<Option<usize>, Fail> {
    let mut bytes = ByteText::new(alloc);
    for _ in 0..size {
        bytes.push(b'a')?;
    }
    let mut vars = VarTable::new(alloc);
    vars.put(b"v", bytes.as_slice())?;
    let rules = rules(alloc)?;
    let main = main_request(alloc)?;
    let request = request(alloc)?;
    let handling = Handling {
        used: false,
        recursive: false,
        changes: 1,
    };
    match page_for(
        alloc,
        rules.as_slice(),
        500,
        handling,
        &main,
        &request,
        &vars,
    ) {
        Ok(Some(PageStep::Url { code: _, to })) => Ok(Some(to.len())),
        _ => Ok(None),
    }
}

#[test]
fn a_text_of_a_byte_too_many_is_refused(rt: HostRuntime) -> Result<(), Fail> {
    let alloc = rt.alloc();
    assert_eq!(rt; address_len(alloc, 16376)?, Some(16384));
    assert_eq!(rt; address_len(alloc, 16377)?, None);
    Ok(())
}
