// What the program says of itself.

pub const VERSION: &str = "h2proxy 0.1.0
";

pub const USAGE: &str = "usage: h2proxy [relay] CONFIG [TURNS]
  CONFIG        reads the configuration in the file CONFIG, listens, and proxies HTTP/2 between clients and clusters
  relay CONFIG  reads the configuration in the file CONFIG, listens, and relays the octets of each client to a cluster and back
  --help        says more; --version says which program this is
";

pub const HELP: &str = "h2proxy stands between clients and clusters of servers.

  h2proxy CONFIG [TURNS]        proxies HTTP/2 with prior knowledge: workers, each in a thread of its own, bring the requests of
                                clients to the clusters of their routes. CONFIG is the file of the configuration
  h2proxy relay CONFIG [TURNS]  pairs each client's connection with one to a cluster, and carries their octets both ways. It
                                reads a connection only while what it brings may wait for the other one
  h2proxy --help                this page
  h2proxy --version             the program's version

Keys of the configuration that both forms use, with their defaults:

  [limits]
  write_buffer = 1048576        octets that may wait for a connection before what brings them isn't read any more; 0 is no limit
  [[clusters]]
  name = \"backend\"
  address = \"127.0.0.1:8080\"    an address and a port; names aren't looked up
  [proxy]
  listen = \"127.0.0.1:0\"        where clients come; port 0 lets the system choose one
  connections = 1               how many connections to each cluster are kept ready for the clients to come; of a proxy of
                                HTTP/2, how many each worker has to each cluster
  max_connections = 1000        the most clients at once; a relay lets others wait in the system's queue
  journal = \"J\"                 every event is written to the file J.1, which `h2replay relay CONFIG` replays, or by worker k
                                to J.k, which `h2replay wire CONFIG` replays; none by default

A proxy of HTTP/2 also uses the [[routes]], the timeouts, the limits and the [overload] of its configuration but overload.shed, and

  workers = 2                   how many threads, each with connections of its own
  accept_rate = 0               how many clients may come in each tenth of a second; 0 is no limit
  accept_burst = 1000           the most of those allowed that are kept for later

Once it listens, `listening ADDRESS` stands on standard output. It ends after TURNS turns of each worker or of the relay, in each of
which it takes one event or waits for a tenth of a second, or when it is killed. What a journal holds by then is whole to the last
octet that was sent. Where the status isn't 0, lines on standard error say why. Keys that are set and that it doesn't use have
lines there at the start, and so has each resource but `connections`, since no other has a gauge.

  0  all turns are over, or no connection could get a number any more
  2  the words have no form
  3  the configuration is refused; the only line is `refused config N KEY`
  5  the configuration couldn't be read
  6  it couldn't listen, had no sockets or no journal, or couldn't wait for sockets; or the output or a journal couldn't be written
  7  out of memory, or a worker had no thread
  9  the configuration has more than 1,048,576 octets
";
