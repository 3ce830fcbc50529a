// The commands as clap reads them, and what it says of words.
use crate::texts::{CHECK, PROGRAM, REPLAY, SERVE};
use clap::{Arg, ArgAction, Command, value_parser};
use std::alloc::{AllocError, Global};
use std::io;
use std::io::Eprint;

// A path that a command needs.
fn path<'a>(alloc: Global, name: &'a str, help: &'a str) -> Arg<'a> {
    Arg::new(alloc, name)
        .help(help)
        .required(true)
        .action(ArgAction::Set)
}

fn racy<'a>(alloc: Global, help: &'a str) -> Arg<'a> {
    Arg::new(alloc, "racy")
        .long("racy")
        .help(help)
        .action(ArgAction::SetTrue)
}

fn turns<'a>(alloc: Global) -> Arg<'a> {
    Arg::new(alloc, "turns")
        .long("turns")
        .value_name("N")
        .help("Stop after N events of the sockets, from 1 to 1000000000")
        .value_parser(value_parser!(u64).range(1..=1000000000))
}

fn check<'a>(alloc: Global) -> Result<Command<'a>, AllocError> {
    Command::new(alloc, "check")
        .about("Read a configuration and print its counts and what races, or its first fault")
        .after_help(CHECK)
        .arg(path(alloc, "CONF", "The path of the configuration"))
}

fn serve<'a>(alloc: Global) -> Result<Command<'a>, AllocError> {
    Command::new(alloc, "serve")
        .about("Serve a configuration until it is stopped, or for N events of the sockets")
        .after_help(SERVE)
        .arg(path(alloc, "CONF", "The path of the configuration"))?
        .arg(turns(alloc))?
        .arg(racy(
            alloc,
            "Serve though it shows in which order subrequests run",
        ))
}

fn replay<'a>(alloc: Global) -> Result<Command<'a>, AllocError> {
    Command::new(alloc, "replay")
        .about("Run a script of connections and print what came of each")
        .after_help(REPLAY)
        .arg(path(alloc, "SCRIPT", "The path of the script"))?
        .arg(racy(alloc, "Run though it shows in which order subrequests run"))
}

/// The commands as clap reads them, under the name of the program, whatever its file is called. What they do is decided by
/// `ngx_cli`, which takes no words beside these, and prints the help and the version of `command_line`: the texts that clap makes
/// of these commands.
pub fn commands<'a>(alloc: Global) -> Result<Command<'a>, AllocError> {
    Command::new(alloc, "ngx")
        .bin_name("ngx")?
        .about("Serve sites over HTTP/1.1 from nginx configuration text")
        .version("0.1.0")
        .after_help(PROGRAM)
        .subcommand_required(true)
        .disable_help_subcommand(true)
        .subcommand(check(alloc)?)?
        .subcommand(serve(alloc)?)?
        .subcommand(replay(alloc)?)
}

/// Says on standard error what is wrong with the words, which are no command line of the program's.
pub fn tell_usage<R: Eprint>(rt: &R, alloc: Global, words: &[String]) -> io::Result<()> {
    let Ok(commands) = commands(alloc) else {
        return eprintln!(rt; "ngx: out of memory");
    };
    match commands.try_get_matches_from(words) {
        Err(error) => eprint!(rt; "{error}"),
        Ok(_) => eprintln!(rt;
            "error: the words are no command line of ngx\n\nFor more information, try '--help'."
        ),
    }
}
