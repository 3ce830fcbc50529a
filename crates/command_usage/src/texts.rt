// What comes after the options in each help: examples and exit statuses.

pub(crate) const PROGRAM: &str = "Examples:\n\
\x20 ngx check /etc/nginx/nginx.conf\n\
\x20 ngx serve examples/files/nginx.conf\n\
\x20 ngx serve nginx.conf --turns 1000\n\
\x20 ngx replay examples/hello.replay\n\
\n\
Exit status:\n\
\x20 0   done\n\
\x20 1   the configuration has a fault: `fault NUMBER KIND FILE:LINE WORD` is printed\n\
\x20 2   no such command, or other words than it takes\n\
\x20 3   it shows in which order subrequests run: `race SERVER $NAME set PLACES read PLACES` is printed\n\
\x20 4   a file couldn't be read\n\
\x20 5   the output was not taken\n\
\x20 6   an address couldn't be listened on, or the sockets failed\n\
\x20 7   no memory\n\
\x20 8   the script has a fault: `script NUMBER KIND LINE` is printed\n\
\x20 9   all turns were taken\n\
\x20 10  a pattern of the configuration is too big";

pub(crate) const CHECK: &str = "Examples:\n\
\x20 ngx check /etc/nginx/nginx.conf\n\
\n\
Exit status:\n\
\x20 0   done: `servers N locations M` is printed\n\
\x20 1   the configuration has a fault: `fault NUMBER KIND FILE:LINE WORD` is printed\n\
\x20 2   other words than it takes\n\
\x20 3   it shows in which order subrequests run: `race SERVER $NAME set PLACES read PLACES` is printed\n\
\x20 4   a file couldn't be read\n\
\x20 5   the output was not taken\n\
\x20 7   no memory\n\
\x20 10  a pattern of the configuration is too big";

pub(crate) const SERVE: &str = "Examples:\n\
\x20 ngx serve examples/files/nginx.conf\n\
\x20 ngx serve nginx.conf --turns 1000\n\
\n\
Exit status:\n\
\x20 0   done\n\
\x20 1   the configuration has a fault: `fault NUMBER KIND FILE:LINE WORD` is printed\n\
\x20 2   other words than it takes\n\
\x20 3   it shows in which order subrequests run: `race SERVER $NAME set PLACES read PLACES` is printed\n\
\x20 4   a file couldn't be read\n\
\x20 5   the output was not taken\n\
\x20 6   an address couldn't be listened on, or the sockets failed\n\
\x20 7   no memory\n\
\x20 9   all turns were taken\n\
\x20 10  a pattern of the configuration is too big";

pub(crate) const REPLAY: &str = "Examples:\n\
\x20 ngx replay examples/hello.replay\n\
\n\
Exit status:\n\
\x20 0   done\n\
\x20 1   the configuration has a fault: `fault NUMBER KIND FILE:LINE WORD` is printed\n\
\x20 2   other words than it takes\n\
\x20 3   it shows in which order subrequests run: `race SERVER $NAME set PLACES read PLACES` is printed\n\
\x20 4   a file couldn't be read\n\
\x20 5   the output was not taken\n\
\x20 7   no memory\n\
\x20 8   the script has a fault: `script NUMBER KIND LINE` is printed\n\
\x20 10  a pattern of the configuration is too big";
