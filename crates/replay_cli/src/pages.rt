// What the program says of itself.

pub const VERSION: &str = "h2replay 0.1.0
";

pub const USAGE: &str =
    "usage: h2replay plain | h2replay wire CONFIG | h2replay shed CONFIG | h2replay relay CONFIG | h2replay drill N
  plain         reads a plain session from standard input, and writes its tape and summary
  wire CONFIG   reads the configuration in the file CONFIG, then a session of HTTP/2 connections, and writes the same
  shed CONFIG   the same, where the load shed points of CONFIG turn a share of what arrives away
  relay CONFIG  reads the configuration in the file CONFIG, then a relay's session, and writes the same
  drill N       runs a session of N streams, 1 to 1000, and writes what it came to
  --help        says more; --version says which program this is
";

pub const HELP: &str =
    "h2replay replays a recorded session, event by event, and writes every step that the core took: the tape.

  h2replay plain         a session of streams that send into one connection, from standard input
  h2replay wire CONFIG   a session of HTTP/2 connections, from standard input; CONFIG is the file of the configuration
  h2replay shed CONFIG   the same, where what arrives passes the load shed points of CONFIG; the tape has a line for each event
                         that was shed
  h2replay relay CONFIG  a session of connections that are paired two and two, each of which is read only while what it
                         brings may wait for the other one; CONFIG is the file of the configuration
  h2replay drill N       a made-up session of N streams, 1 to 1000: what it came to in six lines, without its tape
  h2replay --help        this page
  h2replay --version     the program's version

Of the configuration h2replay wire uses all but the addresses of clusters, [proxy] and overload.shed, which h2replay shed uses too;
h2replay relay uses limits.write_buffer and the names of clusters and resources. The rest is checked.

The tape goes to standard output, and behind it a summary: the greatest length of each buffer, each pause with its resume, and
how many dispatches there were. Where the status isn't 0, a line on standard error says why.

  0  the session was replayed to its end
  2  the words have no form
  3  the configuration is refused; the only line is `refused config N KEY`
  4  a line of the session is refused; the last line is `refused line K`
  5  the configuration or the session couldn't be read
  6  the output couldn't be written
  7  out of memory
  9  the configuration has more than 1,048,576 octets, or the session more than 67,108,864
";
