//! `ngx`: the request engine of nginx, verified.
#![tactic(auto)]

use command_usage::tell_usage;
use ngx_cli::ngx;
use ngx_pattern::CrateMaker;
use socket_links::{ListenFault, SocketLinks, SystemClock};
use std::alloc::Global;
use std::fs::Files;
use std::io::{Eprint, ErrorKind};
use std::net::SocketAddr;
use std::path::{Path, PathBuf};
use std::process::ExitCode;
use std::{env, fs, io};
use std_outside::{HostFiles, HostSink};

/// The exit statuses where a configuration has a fault, where the words are no command, where the files fail, where
/// listening does, where memory runs out, and where a script has a fault.
const CONF_FAULT: u8 = 1;

const USAGE_FAULT: u8 = 2;

const FILES_FAULT: u8 = 4;

const LISTEN_FAULT: u8 = 6;

const OUT_OF_MEMORY: u8 = 7;

const SCRIPT_FAULT: u8 = 8;

// Says why a file can't be read, if it can't.
fn tell_unread<R: Files + Eprint>(rt: &R, path: &str) -> io::Result<()> {
    let found = match fs::metadata(rt, path) {
        Ok(found) => found,
        Err(error) => return eprintln!(rt; "ngx: {path}: {error}"),
    };
    if !found.is_file() {
        return eprintln!(rt; "ngx: {path}: not a file");
    }
    match fs::open(rt, path) {
        Ok(_) => Ok(()),
        Err(error) => eprintln!(rt; "ngx: {path}: {error}"),
    }
}

// Says why an address isn't listened on.
fn tell_unheard<R: Eprint>(rt: &R, fault: ListenFault) -> io::Result<()> {
    let addr = SocketAddr::new(fault.addr.ip, fault.addr.port);
    let error = fault.error;
    eprintln!(rt; "ngx: listening on {addr}: {error}")
}

// Says on standard error what the system said, where the program ended for that, or how it is called.
fn tell_why<R: Files + Eprint>(
    rt: &R,
    alloc: Global,
    code: u8,
    words: &[String],
    unheard: Option<ListenFault>,
) -> io::Result<()> {
    match (code, words.get(2), unheard) {
        (USAGE_FAULT, _, _) => tell_usage(rt, alloc, words),
        (CONF_FAULT | FILES_FAULT | SCRIPT_FAULT, Some(path), _) => tell_unread(rt, path.as_str()),
        (LISTEN_FAULT, _, Some(fault)) => tell_unheard(rt, fault),
        _ => Ok(()),
    }
}

// Whether the word after these is the path of a configuration that is served. Relative paths in it start at its folder, and no file is
// found at a path with a `.` or `..` (which a request could ask for): so the folder is named by its whole path.
fn is_served(words: &[String]) -> bool {
    match words {
        [_, command] => command.as_str() == "serve",
        _ => false,
    }
}

// Whether a word is a relative path, and no option (`--help`).
fn is_relative(word: &str) -> bool {
    !word.starts_with('/') && !word.starts_with('-')
}

// The folder of a file by its whole path, without `.` and `..`.
fn folder_of<R: Files + Alloc>(rt: &R, file: &Path) -> io::Result<PathBuf<R::A>> {
    match file.parent() {
        Some(folder) if !folder.as_str().is_empty() => fs::canonicalize(rt, folder),
        _ => fs::canonicalize(rt, Path::new(".")),
    }
}

// The path of a file by the whole path of its folder, if that folder is there.
fn whole<R: Files + Alloc>(rt: &R, path: &str) -> Option<String<R::A>> {
    let given = Path::new(path);
    let name = given.file_name()?;
    let mut found = folder_of(rt, &given).ok()?;
    found.push(name).ok()?;
    Some(found.into_string())
}

fn main(rt: HostRuntime) -> io::Result<ExitCode> {
    let alloc = rt.alloc();
    let mut words = Vec::new(alloc);
    let given = match env::args(&rt) {
        Ok(given) => given,
        Err(error) if error.kind() == ErrorKind::OutOfMemory => {
            return Ok(ExitCode::from(OUT_OF_MEMORY));
        }
        Err(_) => {
            let _told = eprintln!(rt;
                "error: a word isn't UTF-8\n\nFor more information, try '--help'."
            );
            return Ok(ExitCode::from(USAGE_FAULT));
        }
    };
    for word in given {
        let named = if is_served(&words) && is_relative(word.as_str()) {
            whole(&rt, word.as_str())
        } else {
            None
        };
        if words.push(named.unwrap_or(word)).is_err() {
            return Ok(ExitCode::from(OUT_OF_MEMORY));
        }
    }
    let Ok(mut files) = HostFiles::new(rt.clone()?) else {
        return Ok(ExitCode::from(OUT_OF_MEMORY));
    };
    let Ok(mut links) = SocketLinks::new(alloc, &rt) else {
        return Ok(ExitCode::from(OUT_OF_MEMORY));
    };
    let mut clock = SystemClock::new(&rt);
    let mut out = HostSink::new(rt.clone()?);
    let mut maker = CrateMaker::new();
    let code = ngx(
        alloc, &words, &mut files, &mut links, &mut clock, &mut maker, &mut out,
    );
    let _told = tell_why(&rt, alloc, code, &words, links.listen_fault());
    Ok(ExitCode::from(code))
}
