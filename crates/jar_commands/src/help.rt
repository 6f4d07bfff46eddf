//! The text of `--help`.

/// What `cookie-jar --help` prints.
pub const HELP: &str = "\
Keeps cookies in a file, for requests that are made in a shell.

usage: cookie-jar [OPTION].. JAR COMMAND [WORD]..
       cookie-jar url TEXT

JAR is the file with the cookies; where there is none, the jar is empty. Its ending says its form:
.ron and .json keep all of a cookie; .txt, Netscape's cookies.txt, which curl and wget read, drops
SameSite, Partitioned and what has no text there, and keeps an expiry in whole seconds, not Max-Age.
A name without an ending is of JSON.

commands:
  receive URL          Takes the Set-Cookie lines of answers' heads, from standard input, and tells
                       of each. URL was requested; a Location that curl followed moves it.
      --one            No Location was followed: takes the lines of the last head alone.
  header URL           Prints the line Cookie: .. of a request to URL, or nothing.
      --from PAGE      Of receive and header: the page at the URL PAGE started the request; a
                       cookie goes to another site, or is set by it, as its SameSite lets it.
      --navigate       Beside --from: the request opens a page in the place of PAGE, by a safe
                       method, as a link does that is followed.
  get URL NAME         Prints the value of the cookie NAME that a request to URL gets.
  set URL LINE         Takes LINE as receive takes a Set-Cookie line of an answer from URL.
  list [URL]           Prints a table of the cookies, or of those that a request to URL gets:
                       domain, path, name, value, expiry, in how long, Secure, HttpOnly.
      --domain DOMAIN  Lists those of DOMAIN and of the domains below it; without URL.
      --json           Prints JSON in place of the table.
  explain URL LINE     Says what a Set-Cookie line means, and what would become of it.
  remove DOMAIN PATH NAME
                       Takes one cookie out, named as list prints it, and says how many were.
  clear                Takes all cookies out, and says how many were.
  import FILE          Takes the cookies of FILE; - is standard input.
      --strict         Takes nothing where a line or a row is refused; else the others are taken.
  export FILE          Writes the cookies to FILE; - is standard output.
      --for READER     Writes cookies.txt as READER takes it: curl, wget or python.
      --file-format FORM
                       Of import and export: the form of FILE, ron, json or txt; by its ending
                       where it isn't given, and txt for -.

url TEXT, without JAR, prints the plain URL to ask for in the place of TEXT.

options, which may stand anywhere; behind a word -- no word is an option:
  --format FORM        The form of JAR, ron, json or txt; by its ending where it isn't given.
  --wait SECONDS       For so many seconds another may hold JAR, which is locked while it changes;
                       10 where it isn't given.
  --rules LIST         The rules of browsers for what is received, some of those below with commas
                       between, or browser for all but the last two, or none; browser where it
                       isn't given. lax-by-default counts beside --from.
  --suffixes FILE      The list of public suffixes; where it isn't given, that which
                       COOKIE_JAR_SUFFIXES names in the environment, else Debian's.
  --now MOMENT         The moment, as 2024-01-01T00:00:00Z; the clock's where it isn't given.
  -v, --verbose        Says on standard error which list of public suffixes is used, and which rows
                       JAR drops. receive prints what it passes over, too.
  -h, --help           Prints this text.
  -V, --version        Prints the version.

rules: long-attributes, dates, long-lives, control, too-long, secure-prefix, host-prefix,
secure-from-http, secure-overlay, lax-by-default, none-needs-secure

examples:
  curl -gsLD - -o page https://shop.com/ | cookie-jar jar.json receive https://shop.com/
  cookie-jar jar.json header https://shop.com/ | curl -gH @- https://shop.com/
  cookie-jar jar.json import cookies.txt

A command that changes JAR locks JAR.lock, an empty file beside it that stays: never remove it.

status: 0; 1 where a line was refused, or nothing was removed or found; 2 with one line on standard
error
";
