// What the program says of itself.

pub const VERSION: &str = "h2plot 0.1.0
";

pub const USAGE: &str = "usage: h2plot [--all | [--flow F] [--conn C]] [--from K] [--to K]
  reads a tape with its summary, as h2replay writes it, from standard input, and writes its picture as an SVG file
  --all        draws each buffer that ever held an octet; else the 40 that were highest against their limit
  --flow F     draws the buffers of flow F, as 7q or 7r
  --conn C     draws the write buffer of connection C
  --from K     draws from dispatch K on; --to K up to dispatch K
  --help       says more; --version says which program this is
";

pub const HELP: &str =
    "h2plot draws a tape that h2replay wrote: h2replay plain < s.session | h2plot > s.svg

  h2plot               the 40 buffers that were highest against their limit, over all dispatches
  h2plot --all         all buffers that ever held an octet
  h2plot --flow F      the buffers of flow F: 7q is the request of exchange 7, 7r its response
  h2plot --conn C      the write buffer of connection C
  h2plot --from K      from dispatch K on; notes before it are read, and what lies in buffers then is where lines begin
  h2plot --to K        up to dispatch K
  h2plot --help        this page
  h2plot --version     the program's version

Time goes from left to right by dispatches. A lane shows how many octets a buffer held: in each column down to the least, up to
the greatest, and on with the last. The limit is a line of long dashes, half of it one of short dashes, and what stood above the
limit is filled. A tape that was cut tells no limits, and is drawn without. The bar below a flow is its read-disable count, white
at 0. Triangles are dooms, squares closes, diamonds timers; a browser shows their words, and those that began a dispatch, where
the pointer rests. Where a tape is long, a column has 2, 4, 8 or more dispatches. The `shed` lines that h2replay shed writes are
refused, and move nothing: h2replay shed CONFIG < s.session | grep -v '^shed ' | h2plot > s.svg. Where the status isn't 0, a line on
standard error says why, and nothing is written.

  0  the picture was written
  2  the words have no form
  4  a line is neither a note nor a line of a summary, or stands out of order, or has more than 131,071 octets
  5  the tape couldn't be read
  6  the output couldn't be written
  7  out of memory
";
