// What the program says of itself.
ghost use Rattle.std.specs.Prelude.{◌≡◌};
ghost use Rattle.command_line.specs.Help.{help_text as help, version_text as version, program_help as for_program, check_help as for_check, serve_help as for_serve, replay_help as for_replay};

/// Of what the help is asked for: of the program itself, or of one of its commands.
#[derive(Clone, Copy)]
pub enum Topic {
    Program,
    Check,
    Serve,
    Replay,
}

/// The program's name and version.
const VERSION: &[u8] = b"ngx 0.1.0\n";

/// What the program does, with its commands, examples and exit statuses.
const PROGRAM: &[u8] = b"Serve sites over HTTP/1.1 from nginx configuration text\n\
\n\
Usage: ngx <COMMAND>\n\
\n\
Commands:\n\
\x20 check   Read a configuration and print its counts and what races, or its first fault\n\
\x20 serve   Serve a configuration until it is stopped, or for N events of the sockets\n\
\x20 replay  Run a script of connections and print what came of each\n\
\n\
Options:\n\
\x20 -h, --help     Print help\n\
\x20 -V, --version  Print version\n\
\n\
Examples:\n\
\x20 ngx check /etc/nginx/nginx.conf\n\
\x20 ngx serve examples/files/nginx.conf\n\
\x20 ngx serve nginx.conf --turns 1000\n\
\x20 ngx replay examples/hello.replay\n\
\n\
Exit status:\n\
\x20 0   done\n\
\x20 1   the configuration has a fault: `fault NUMBER KIND FILE:LINE WORD` is printed\n\
\x20 2   no such command, or other words than it takes\n\
\x20 3   it shows in which order subrequests run: `race SERVER $NAME set PLACES read PLACES` is printed\n\
\x20 4   a file couldn't be read\n\
\x20 5   the output was not taken\n\
\x20 6   an address couldn't be listened on, or the sockets failed\n\
\x20 7   no memory\n\
\x20 8   the script has a fault: `script NUMBER KIND LINE` is printed\n\
\x20 9   all turns were taken\n\
\x20 10  a pattern of the configuration is too big\n";

/// What each command does, with what it takes, examples and its exit statuses.
const CHECK: &[u8] =
    b"Read a configuration and print its counts and what races, or its first fault\n\
\n\
Usage: ngx check <CONF>\n\
\n\
Arguments:\n\
\x20 <CONF>  The path of the configuration\n\
\n\
Options:\n\
\x20 -h, --help  Print help\n\
\n\
Examples:\n\
\x20 ngx check /etc/nginx/nginx.conf\n\
\n\
Exit status:\n\
\x20 0   done: `servers N locations M` is printed\n\
\x20 1   the configuration has a fault: `fault NUMBER KIND FILE:LINE WORD` is printed\n\
\x20 2   other words than it takes\n\
\x20 3   it shows in which order subrequests run: `race SERVER $NAME set PLACES read PLACES` is printed\n\
\x20 4   a file couldn't be read\n\
\x20 5   the output was not taken\n\
\x20 7   no memory\n\
\x20 10  a pattern of the configuration is too big\n";

const SERVE: &[u8] = b"Serve a configuration until it is stopped, or for N events of the sockets\n\
\n\
Usage: ngx serve [OPTIONS] <CONF>\n\
\n\
Arguments:\n\
\x20 <CONF>  The path of the configuration\n\
\n\
Options:\n\
\x20     --turns <N>  Stop after N events of the sockets, from 1 to 1000000000\n\
\x20     --racy       Serve though it shows in which order subrequests run\n\
\x20 -h, --help       Print help\n\
\n\
Examples:\n\
\x20 ngx serve examples/files/nginx.conf\n\
\x20 ngx serve nginx.conf --turns 1000\n\
\n\
Exit status:\n\
\x20 0   done\n\
\x20 1   the configuration has a fault: `fault NUMBER KIND FILE:LINE WORD` is printed\n\
\x20 2   other words than it takes\n\
\x20 3   it shows in which order subrequests run: `race SERVER $NAME set PLACES read PLACES` is printed\n\
\x20 4   a file couldn't be read\n\
\x20 5   the output was not taken\n\
\x20 6   an address couldn't be listened on, or the sockets failed\n\
\x20 7   no memory\n\
\x20 9   all turns were taken\n\
\x20 10  a pattern of the configuration is too big\n";

const REPLAY: &[u8] = b"Run a script of connections and print what came of each\n\
\n\
Usage: ngx replay [OPTIONS] <SCRIPT>\n\
\n\
Arguments:\n\
\x20 <SCRIPT>  The path of the script\n\
\n\
Options:\n\
\x20     --racy  Run though it shows in which order subrequests run\n\
\x20 -h, --help  Print help\n\
\n\
Examples:\n\
\x20 ngx replay examples/hello.replay\n\
\n\
Exit status:\n\
\x20 0   done\n\
\x20 1   the configuration has a fault: `fault NUMBER KIND FILE:LINE WORD` is printed\n\
\x20 2   other words than it takes\n\
\x20 3   it shows in which order subrequests run: `race SERVER $NAME set PLACES read PLACES` is printed\n\
\x20 4   a file couldn't be read\n\
\x20 5   the output was not taken\n\
\x20 7   no memory\n\
\x20 8   the script has a fault: `script NUMBER KIND LINE` is printed\n\
\x20 10  a pattern of the configuration is too big\n";

#[tactic(auto, unfolding(crate::specs::Help::program_help))]
fn program_help() -> &'static [u8]
    ensures { result.now ≡ for_program }
{
    PROGRAM
}

#[tactic(auto, unfolding(crate::specs::Help::check_help))]
fn check_help() -> &'static [u8]
    ensures { result.now ≡ for_check }
{
    CHECK
}

#[tactic(auto, unfolding(crate::specs::Help::serve_help))]
fn serve_help() -> &'static [u8]
    ensures { result.now ≡ for_serve }
{
    SERVE
}

#[tactic(auto, unfolding(crate::specs::Help::replay_help))]
fn replay_help() -> &'static [u8]
    ensures { result.now ≡ for_replay }
{
    REPLAY
}

/// What the program says of itself or of a command: its help.
pub fn help_text(topic: Topic) -> &'static [u8]
    ensures { result.now ≡ help topic }
{
    match topic {
        Topic::Program => program_help(),
        Topic::Check => check_help(),
        Topic::Serve => serve_help(),
        Topic::Replay => replay_help(),
    }
}

/// Its name and version, in a line.
#[tactic(auto, unfolding(crate::specs::Help::version_text))]
pub fn version_text() -> &'static [u8]
    ensures { result.now ≡ version }
{
    VERSION
}
