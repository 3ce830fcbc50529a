use crate::commands::called;
use clap::Error;
use command_line::{Command, command_of, help_text, version_text};
use command_usage::commands;
use std::alloc::Global;
use std::process::Abort;
use std::test::Fail;

/// What clap says of words that it doesn't take, or that ask it for help or for the version.
fn said(alloc: Global, words: &[String]) -> Result<Option<Error>, Fail> {
    match commands(alloc)?.try_get_matches_from(words) {
        Ok(_) => Ok(None),
        Err(error) => Ok(Some(error)),
    }
}

/// The text that words ask the program for, if they ask for one.
fn asked(words: &[String]) -> Option<&'static [u8]> {
    match command_of(words) {
        Some(Command::Help { topic }) => Some(help_text(topic)),
        Some(Command::Version) => Some(version_text()),
        _ => None,
    }
}

fn all_are_texts_of_clap(rt: &impl Abort, alloc: Global, cases: &[&[&str]]) -> Result<(), Fail> {
    for words in cases {
        let called = called(alloc, *words)?;
        let Some(error) = said(alloc, called.as_slice())? else {
            panic!(rt; "clap takes {words:?}");
        };
        let text = format!(in alloc; "{error}")?;
        assert!(rt; !error.use_stderr(), "{words:?}");
        assert_eq!(rt;
            asked(called.as_slice()),
            Some(text.as_bytes()),
            "{words:?}"
        );
    }
    Ok(())
}

#[test]
fn what_the_program_says_of_itself_is_what_clap_prints(rt: HostRuntime) -> Result<(), Fail> {
    all_are_texts_of_clap(
        &rt,
        rt.alloc(),
        &[
            &["ngx", "--help"],
            &["ngx", "-h"],
            &["ngx", "--version"],
            &["ngx", "-V"],
            &["ngx", "check", "--help"],
            &["/usr/bin/other", "check", "--help"],
            &["ngx", "serve", "--help"],
            &["ngx", "replay", "-h"],
            &["ngx", "check", "a", "--help"],
            &["ngx", "serve", "a", "-h"],
            &["ngx", "replay", "a", "--help"],
        ],
    )
}

fn all_are_wrong(rt: &impl Abort, alloc: Global, cases: &[&[&str]]) -> Result<(), Fail> {
    for words in cases {
        let called = called(alloc, *words)?;
        let Some(error) = said(alloc, called.as_slice())? else {
            panic!(rt; "clap takes {words:?}");
        };
        assert!(rt; error.use_stderr(), "{words:?}");
        assert!(rt; command_of(called.as_slice()).is_none(), "{words:?}");
    }
    Ok(())
}

#[test]
fn clap_says_what_is_wrong_with_words_that_are_no_command(rt: HostRuntime) -> Result<(), Fail> {
    all_are_wrong(
        &rt,
        rt.alloc(),
        &[
            &["ngx"],
            &["ngx", "frob"],
            &["ngx", "frob", "--help"],
            &["ngx", "help"],
            &["ngx", "check"],
            &["ngx", "serve"],
            &["ngx", "replay"],
            &["ngx", "check", "a", "b"],
            &["ngx", "check", "a", "--racy"],
            &["ngx", "serve", "a", "--turn", "1"],
            &["ngx", "serve", "a", "--turns"],
            &["ngx", "serve", "a", "--turns", "0"],
            &["ngx", "serve", "a", "--turns", "x"],
            &["ngx", "serve", "a", "--turns", "1000000001"],
            &["ngx", "replay", "a", "--turns", "1"],
        ],
    )
}
