// What the program's words ask for.
ghost use Rattle.std.specs.Prelude.{◌≡◌, option_map, map, string_bytes};
ghost use Rattle.command_line.specs.Words.{request_in, request_of, serve_after, command_for, racy_for, turns_for_path, both_for, with_options, turns_of as turns_for, is_help as asks_help, is_version as asks_version, option_for, help_for};

use crate::help::Topic;
use crate::turns::{ALL_TURNS, turns_of};

/// What the words ask for.
#[derive(Clone, Copy)]
pub enum Command<'a> {
    /// What the program says of itself, or of a command, is to be printed.
    Help {
        topic: Topic,
    },
    /// Its version is to be printed.
    Version,
    /// A configuration is to be read.
    Check {
        conf: &'a str,
    },
    /// A script is to be run, if need be on a site where it shows in which order subrequests run.
    Replay {
        script: &'a str,
        racy: bool,
    },
    /// The site of a configuration is to be served, for this many turns, if need be though it shows in which order subrequests
    /// run.
    Serve {
        conf: &'a str,
        turns: u64,
        racy: bool,
    },
}

fn serve_for<'a>(conf: &'a str, turns: &str, racy: bool) -> Option<Command<'a>>
    ensures { option_map request_of result ≡ serve_after conf.now racy (turns_for turns.now) }
{
    match turns_of(turns.as_bytes()) {
        Some(turns) => Some(Command::Serve { conf, turns, racy }),
        None => None,
    }
}

fn is_help(word: &str) -> bool
    ensures { result ≡ asks_help word.now }
{
    word == "--help" || word == "-h"
}

fn is_version(word: &str) -> bool
    ensures { result ≡ asks_version word.now }
{
    word == "--version" || word == "-V"
}

// What an option alone asks for.
fn option_for(word: &str) -> Option<Command<'_>>
    ensures { option_map request_of result ≡ option_for word.now }
{
    if is_help(word) {
        Some(Command::Help {
            topic: Topic::Program,
        })
    } else if is_version(word) {
        Some(Command::Version)
    } else {
        None
    }
}

// The help of a command.
fn help_for<'a>(command: &str) -> Option<Command<'a>>
    ensures { option_map request_of result ≡ help_for command.now }
{
    if command == "check" {
        Some(Command::Help {
            topic: Topic::Check,
        })
    } else if command == "replay" {
        Some(Command::Help {
            topic: Topic::Replay,
        })
    } else if command == "serve" {
        Some(Command::Help {
            topic: Topic::Serve,
        })
    } else {
        None
    }
}

// What a command with a path alone asks for.
#[tactic(auto, unfolding(crate::specs::Words::all_turns))]
fn command_for<'a>(command: &str, path: &'a str) -> Option<Command<'a>>
    ensures { option_map request_of result ≡ command_for command.now path.now }
{
    if command == "check" {
        Some(Command::Check { conf: path })
    } else if command == "replay" {
        Some(Command::Replay {
            script: path,
            racy: false,
        })
    } else if command == "serve" {
        Some(Command::Serve {
            conf: path,
            turns: ALL_TURNS,
            racy: false,
        })
    } else {
        None
    }
}

// What a command with a path and `--racy` asks for.
#[tactic(auto, unfolding(crate::specs::Words::all_turns))]
fn racy_for<'a>(command: &str, path: &'a str, option: &str) -> Option<Command<'a>>
    ensures { option_map request_of result ≡ racy_for command.now path.now option.now }
{
    if option != "--racy" {
        None
    } else if command == "replay" {
        Some(Command::Replay {
            script: path,
            racy: true,
        })
    } else if command == "serve" {
        Some(Command::Serve {
            conf: path,
            turns: ALL_TURNS,
            racy: true,
        })
    } else {
        None
    }
}

// What `serve` with a path, `--turns` and a number asks for.
fn turns_for_path<'a>(
    command: &str,
    path: &'a str,
    option: &str,
    turns: &str,
) -> Option<Command<'a>>
    ensures { option_map request_of result
        ≡ turns_for_path command.now path.now option.now turns.now }
{
    if command == "serve" && option == "--turns" {
        serve_for(path, turns, false)
    } else {
        None
    }
}

// What `serve` with a path and both options asks for, in either order.
fn both_for<'a>(
    command: &str,
    path: &'a str,
    first: &str,
    second: &str,
    third: &str,
) -> Option<Command<'a>>
    ensures { option_map request_of result
        ≡ both_for command.now path.now first.now second.now third.now }
{
    if command != "serve" {
        None
    } else if first == "--turns" && third == "--racy" {
        serve_for(path, second, true)
    } else if first == "--racy" && second == "--turns" {
        serve_for(path, third, true)
    } else {
        None
    }
}

// What a command with a path and options asks for: in place of the path, or after it, the help can be asked for.
fn with_options<'a>(command: &str, path: &'a str, options: &[String]) -> Option<Command<'a>>
    ensures { option_map request_of result
        ≡ with_options command.now path.now (map string_bytes options.now) }
{
    match options {
        [] => {
            if is_help(path) {
                help_for(command)
            } else {
                command_for(command, path)
            }
        }
        [option] => {
            if is_help(option.as_str()) {
                help_for(command)
            } else {
                racy_for(command, path, option.as_str())
            }
        }
        [option, turns] => turns_for_path(command, path, option.as_str(), turns.as_str()),
        [first, second, third] => both_for(
            command,
            path,
            first.as_str(),
            second.as_str(),
            third.as_str(),
        ),
        _ => None,
    }
}

/// What the words ask for, if they are a command.
pub fn command_of(words: &[String]) -> Option<Command<'_>>
    ensures { option_map request_of result ≡ request_in (map string_bytes words.now) }
{
    match words {
        [_, word] => option_for(word.as_str()),
        [_, command, path, options @ ..] => {
            with_options(command.as_str(), path.as_str(), options)
        }
        _ => None,
    }
}
