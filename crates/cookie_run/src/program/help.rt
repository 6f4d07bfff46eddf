//! The text of `--help`.

/// What `cookie-run --help` prints.
pub const HELP: &str = "\
Plays a script of requests and their answers, for a client that is kept in a file.

usage: cookie-run SUFFIXFILE SEED STOREFILE MOMENT < SCRIPT
       cookie-run --help
       cookie-run --version

The script is read from standard input, and what it prints goes to standard output.

  SUFFIXFILE  a public suffix list
  SEED        64 hexadecimal digits, or @FILE, which holds them: key and generator come from them
  STOREFILE   the saved client; where it isn't there, the client begins empty. A run whose script
              ended whole puts the client in its place, with the file's rights, or 600 where it made
              it; any other leaves it as it was. An empty file, as `touch` and `mktemp` make one, is
              no saved client: `store text`. It is locked all the while, by STOREFILE.lock, an empty
              file that stays: never remove it. Where no such file can be made or opened, the
              script is played, and then nothing is written: `store file`
  MOMENT      a whole second of the years 1971 to 9998, as 2024-01-01T00:00:00Z: the script's first

A script has a line for each step, its fields parted by tabs and percent-escaped (here by blanks):

  open  https://shop.com/  2024-01-01T00:00:00Z     a request comes to a session
  set  plain  a  1  60  -                           sets a cookie: way, name, value, max-age and
                                                    expires, `-` for none
  remove  plain  a                                  removes a cookie
  get  plain  a                                     prints what the session reads: `=` and the
                                                    value, or `-`
  set-until  signed  a  1  2024-01-01T00:30:00Z     sets a value that ends: signed or sealed, name,
                                                    value and moment
  get-until  signed  a                              prints what the session reads of such a value
  deliver  2024-01-01T00:00:01Z                     the session's answer comes to the client
  lose                                              it never comes
  receive  https://evil.com/  2024-01-01T00:00:02Z  a=1; Path=/
                                                    an answer of these lines that no session made
  header  https://shop.com/  2024-01-01T00:00:03Z   prints the header of a request
  restart  2024-01-01T00:00:04Z                     the client is saved and loaded again
  rotate  SEED  2024-01-01T00:00:05Z  2024-01-08T00:00:00Z
                                                    the sessions' key is that of SEED now; the one
                                                    before is read until the last moment, `-` for
                                                    ever

Ways are plain, host, secure, signed and sealed. What an earlier key signed or sealed is printed
with a field more, the key's place: 1 for the one before. The first faulty line ends the run with
`line N: Name`, Name being the first of

  Word       no word of a script              Back       before an earlier moment
  Text       a field that isn't UTF-8         NoSession  no session is open
  Fields     their number, a way, an age,     Open       a session is open
             a date, a seed
  Url        no URL                           EmptyName  a cookie without a name
  Moment     no moment of the years 1971      Year       an expiry of a year below 100
             to 9998
  TooLong    a text too long to be sealed     Keys       over 16 earlier keys
  Memory     no memory for the line

Two more, Rng and Restart, no run of this program prints.

status: 0 where every line was done, 1 after a faulty line, and 2 with one line `cookie-run: WORDS`
on standard error, WORDS being the first of arguments (not four), seed, moment, suffix file (not
read), suffix list (none), store in use (another run held its lock for ten seconds), lock file (the
system refuses to lock STOREFILE.lock), store file (not read, or not written), store text (none; an
empty file is none), input, output; or memory, where memory was refused outside the script
";
