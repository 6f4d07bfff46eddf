//! A jar: a store whose rows can be sent, saved and read again, with what the commands of a shell do to it.
ghost use Rattle.std.specs.Prelude.{◌≡◌, ◌+◌, ◌++◌, [], false, true, IfOk, IfErr, OnErr, is_some, length, map, IsTrue};
ghost use Rattle.std.specs.Prelude.{None, option_map, string_bytes};
ghost use Rattle.std.specs.List.{list_all};
ghost use Rattle.std.specs.Str.{IsUtf8};
ghost use Rattle.jiff.specs.Words.{civil_nanos};
ghost use Rattle.cookie_store.specs.Given.{ArePicked};
ghost use Rattle.cookie_store.specs.Longest.{AreGivenLongest};
ghost use Rattle.cookie_store.specs.Placing.{loaded};
ghost use Rattle.cookie_store.specs.Rows.{Store, found, is_live, key, live, removed};
ghost use Rattle.user_agent.specs.CrossSite.{IsHeaderFor};
ghost use Rattle.cookies_txt.specs.Layout.{text_for};
ghost use Rattle.cookies_txt.specs.Writing.{held, line_of_row};
ghost use Rattle.cookie_jar.specs.Asking as asked;
ghost use Rattle.cookie_jar.specs.Entries.{IsRefusal};
ghost use Rattle.cookie_jar.specs.Importing as entry;
ghost use Rattle.cookie_jar.specs.Keeping.{AreKept, IsKept, IsTaken, has_control};
ghost use Rattle.cookie_jar.specs.Reading as spec;
ghost use Rattle.cookie_jar.specs.Rows.{lent_rows};
ghost use Rattle.cookie_jar.specs.Saving as text;
ghost use Rattle.cookie_jar.specs.Taking as take;
ghost use Rattle.cookie_jar.specs.Terminal.{ShowsNoControl};
ghost use Rattle.cookie_jar.specs.Told as told;

use crate::asking::{Which, first_value, key_texts, meant, rows_listed};
use crate::error::{ImportError, ReadError, SaveError};
use crate::explaining::explain_line;
use crate::form::Form;
use crate::importing::{Imported, import_text};
use crate::json_list::rows_json;
use crate::keeping::only_kept;
use crate::left_out::passed_over_lines;
use crate::listing::{Layout, listing};
use crate::reading::read;
use crate::rows::{live_rows, placed, rows_of, rows_with};
use crate::saving::{Exported, lines_for, text_of};
use crate::taking::{End, take_all};
use crate::terminal::Shown;
use crate::told::header_line;
use cookie_client::laws::host_rows_are_held_rightly;
use cookie_client::{Client, Stopped};
use cookie_store::{Cookie, CookieStore};
use cookies_txt::Reader;
use jiff::civil::DateTime;
use publicsuffix::List;
use std::alloc::{AllocError, Global};
use std::marker::Model;
use url::Url;
use user_agent::cross_site::header_for;
use user_agent::laws::no_control_comes;
use user_agent::{Initiator, Rules};

/// A jar, which contracts see as its client's store: the rows in their order, and the list of public suffixes.
///
/// It enforces the prefix `__Host-` as a [`cookie_client::Client`] does. No control character stands in the names,
/// values, domains and paths of its rows, and names and values are as a text gives them: so its texts are read again as
/// these rows ([`crate::laws::saved_rows_are_loaded`]). Unlike a client, it keeps cookies without an expiry where it is
/// saved and loaded again, as curl does.
#[derive(Drop, Debug)]
pub struct Jar {
    client: Client,
}

impl Model for Jar {
    ghost use Rattle.cookie_store.specs.Rows.{Store};
    ghost use Rattle.cookie_jar.specs.Keeping.{AreKept};

    ghost Value = { Store };

    ghost view = { λ j. j.client };

    ghost invariant = { λ j. AreKept j.client.rows };
}

impl Jar {
    /// A jar without a row, with this list of public suffixes.
    pub fn new(alloc: Global, list: List) -> Jar
        ensures { result ≡ record { rows = []; suffixes = list } }
    {
        Jar {
            client: Client::new(alloc, list),
        }
    }

    /// The jar of a text, without the rows that are expired at `now`, and then without those that a jar doesn't keep:
    /// with a control character in name, value, domain or path, of a name or a value that no text gives, or against the
    /// prefix `__Host-`. Of two rows with one key the later replaces the earlier in its place. No row is judged by the
    /// list of public suffixes.
    ///
    /// # Errors
    ///
    /// `Saved` or `Lines` with why the text isn't one of the form; `OutOfMemory`.
    pub fn load(
        alloc: Global,
        list: List,
        form: Form,
        text: &[u8],
        now: DateTime,
    ) -> Result<Jar, ReadError>
        ensures ok { IfOk result (λ jar. (store : Store) × spec.Reads form (civil_nanos now) text.now store
            × ArePicked IsKept store.rows jar.rows) }
        ensures list { IfOk result (λ jar. jar.suffixes ≡ list) }
        ensures kept { IfOk result (λ jar. AreKept jar.rows) }
        ensures err { IfErr result (spec.IsUnread form text.now) }
    {
        match read(alloc, form, text, now) {
            Ok(store) => match only_kept(alloc, store, now) {
                Ok(store) => Ok(Jar {
                    client: Client::of(alloc, store.with_suffix_list(list)),
                }),
                Err(_) => Err(ReadError::OutOfMemory),
            },
            Err(cause) => Err(cause),
        }
    }

    /// The text of its rows that aren't expired at `now`, in their order. It is read again as these rows
    /// ([`crate::laws::saved_rows_are_loaded`]).
    ///
    /// # Errors
    ///
    /// Of RON and JSON `Year` where one of them ends in a year below 0; of `cookies.txt` `Row` with the number of the
    /// first that a line can't hold, counted from 1, and why; `OutOfMemory`.
    pub fn save(&self, form: Form, now: DateTime) -> Result<Vec<u8>, SaveError>
        ensures ok { IfOk result (λ saved.
            text.IsText form (live (civil_nanos now) self.now.rows) saved.items) }
        ensures fits { IfOk result (λ _.
            text.fitting form (live (civil_nanos now) self.now.rows) ≡ live (civil_nanos now) self.now.rows) }
        ensures bytes { IfOk result (λ _. text.AreBytesIn form (live (civil_nanos now) self.now.rows)) }
        ensures utf8 { IfOk result (λ saved. IsUtf8 saved.items) }
        ensures err { IfErr result (text.IsUnsaved form false (live (civil_nanos now) self.now.rows)) }
    {
        match self.written(form, false, now) {
            Ok(exported) => Ok(exported.text),
            Err(cause) => Err(cause),
        }
    }

    /// The same, passing over the rows that a line of `cookies.txt` can't hold.
    ///
    /// # Errors
    ///
    /// Of RON and JSON `Year` where a row ends in a year below 0; `OutOfMemory`.
    pub fn export(&self, form: Form, now: DateTime) -> Result<Exported, SaveError>
        ensures text { IfOk result (λ exported. text.IsText form
            (text.fitting form (live (civil_nanos now) self.now.rows)) exported.text.items) }
        ensures rows { IfOk result (λ exported. exported.rows
            ≡ length (text.fitting form (live (civil_nanos now) self.now.rows))) }
        ensures passed_over { IfOk result (λ exported. exported.rows + exported.passed_over
            ≡ length (live (civil_nanos now) self.now.rows)) }
        ensures err { IfErr result (text.IsUnsaved form true (live (civil_nanos now) self.now.rows)) }
    {
        self.written(form, true, now)
    }

    /// The text of its rows that aren't expired at `now` as `cookies.txt` for this reader, in their order, passing over
    /// those that a line can't hold. For wget no line is marked as HttpOnly, since it takes such for comments, and for
    /// Python an expiry that there isn't is left empty.
    ///
    /// # Errors
    ///
    /// `AllocError`, for want of memory.
    pub fn export_for(&self, reader: Reader, now: DateTime) -> Result<Exported, AllocError>
        ensures text { IfOk result (λ exported. exported.text.items
            ≡ text_for reader (map line_of_row (held (live (civil_nanos now) self.now.rows)))) }
        ensures rows { IfOk result (λ exported. exported.rows
            ≡ length (held (live (civil_nanos now) self.now.rows))) }
        ensures passed_over { IfOk result (λ exported. exported.rows + exported.passed_over
            ≡ length (live (civil_nanos now) self.now.rows)) }
    {
        let (alloc, store) = (self.client.alloc(), self.client.store());
        let told = passed_over_lines(alloc, live_rows(alloc, store, now)?)?;
        lines_for(alloc, reader, live_rows(alloc, store, now)?, told)
    }

    // The text of its rows that aren't expired.
    fn written(&self, form: Form, passing_over: bool, now: DateTime) -> Result<Exported, SaveError>
        ensures text { IfOk result (λ exported. text.IsText form
            (text.fitting form (live (civil_nanos now) self.now.rows)) exported.text.items) }
        ensures rows { IfOk result (λ exported. exported.rows
            ≡ length (text.fitting form (live (civil_nanos now) self.now.rows))) }
        ensures passed_over { IfOk result (λ exported. exported.rows + exported.passed_over
            ≡ length (live (civil_nanos now) self.now.rows)) }
        ensures all { passing_over ≡ false → IfOk result (λ _.
            text.fitting form (live (civil_nanos now) self.now.rows) ≡ live (civil_nanos now) self.now.rows) }
        ensures bytes { IfOk result (λ _. text.AreBytesIn form (live (civil_nanos now) self.now.rows)) }
        ensures utf8 { IfOk result (λ exported. IsUtf8 exported.text.items) }
        ensures err { IfErr result (text.IsUnsaved form passing_over (live (civil_nanos now) self.now.rows)) }
    {
        let (alloc, store) = (self.client.alloc(), self.client.store());
        if are_live(store, now) {
            return text_of(alloc, store, form, passing_over);
        }
        let live = unexpired(alloc, store, now)?;
        text_of(alloc, &live, form, passing_over)
    }

    /// Puts the rows of the lines or the items of a text of this form behind its own, each read by itself: without
    /// those that are expired at `now`, and of two with one key the later in the place of the earlier. A line is read
    /// as [`cookies_txt::read_entries`] has it, and an item of a list of RON or JSON as one of a jar, but that its
    /// domain is put into its IDNA form.
    ///
    /// Refused alone are a line or an item that is no row or whose domain has no such form; one with a row that a jar
    /// doesn't keep, with a control character in name, value, domain or path, of a name or a value that no text gives,
    /// or against the prefix `__Host-`; and one that `held`, the form in which the jar is to be saved, can't hold. One
    /// whose row is expired at `now` is passed over before. No row is judged by the list of public suffixes.
    ///
    /// # Errors
    ///
    /// `NoList` where a text of RON or JSON is no list, `OutOfMemory`. The jar is then as it was.
    pub fn import(
        &mut self,
        form: Form,
        held: Form,
        text: &[u8],
        now: DateTime,
    ) -> Result<Imported, ImportError>
        ensures ok { IfOk result (λ done. entry.Imports form held (civil_nanos now) text.now self.old.rows
            (entry.import_text done) self.new.rows) }
        ensures err { IfErr result (IsRefusal form text.now) }
        ensures same { OnErr result (self.new ≡ self.old) }
        ensures list { self.new.suffixes ≡ self.old.suffixes }
        ensures kept { AreKept self.new.rows }
    {
        let (alloc, store) = (self.client.alloc(), self.client.store());
        let (done, whole) = import_text(alloc, store, form, held, text, now)?;
        self.client.replace_rows(whole);
        Ok(done)
    }

    /// The line `Cookie: ..` of a request to this URL at `now` that is started so (RFC 6265, section 5.4), with longer
    /// paths first, or nothing where no cookie goes with it: behind these rules, as
    /// [`user_agent::UserAgent::header_for`] has its header. But for its end no control character stands in it.
    ///
    /// # Errors
    ///
    /// `AllocError` where there is no memory for the text.
    pub fn header(
        &self,
        rules: &Rules,
        url: &Url,
        initiator: &Initiator<'_>,
        now: DateTime,
    ) -> Result<String, AllocError>
        ensures { IfOk result (λ line. (header : _) × IsHeaderFor rules.now self.now.suffixes self.now.rows url.now
            initiator.now (civil_nanos now) header
            × (string_bytes line ≡ told.header_line header) × (has_control header ≡ false)) }
    {
        let header = header_for(&self.client, rules, url, initiator, now)?;
        header_line(self.client.alloc(), header.as_str())
    }

    /// Takes the `Set-Cookie` lines of an answer at `now` to a request to this URL that was started so, one after
    /// another, and says what became of each, as [`user_agent::UserAgent::receive_for`] does behind these rules. Before
    /// them a line with a control character is refused, and one with a tab where the jar is to be saved as
    /// `cookies.txt`. Without a rule any other line is taken as a client takes it
    /// ([`crate::laws::no_rules_are_a_client`]), but that none is that its `SameSite` keeps out.
    ///
    /// # Errors
    ///
    /// `Stopped` with the line, counted from 1, at which memory was refused: those before it are applied and no later
    /// one was looked at. At 0 none was looked at.
    pub fn receive(
        &mut self,
        form: Form,
        rules: &Rules,
        url: &Url,
        initiator: &Initiator<'_>,
        lines: &[&[u8]],
        now: DateTime,
    ) -> Result<Vec<End>, Stopped>
        ensures all { IfOk result (λ ends. take.TakesFor form rules.now self.old.suffixes self.old.rows url.now
            initiator.now (civil_nanos now) (map (λ line. line.now) lines.now) ends.items self.new.rows) }
        ensures stopped { IfErr result (λ stopped. take.IsStoppedFor form rules.now self.old.suffixes self.old.rows
            url.now initiator.now (civil_nanos now) (map (λ line. line.now) lines.now) stopped.0 self.new.rows) }
        ensures list { self.new.suffixes ≡ self.old.suffixes }
        ensures kept { AreKept self.new.rows }
    {
        host_rows_are_held_rightly();
        no_control_comes();
        // A URL that was parsed is valid, whatever is done with it.
        let _path = url.path();
        take_all(&mut self.client, form, rules, url, initiator, lines, now)
    }

    /// The value of the first cookie of this name that a request to this URL gets at `now`, with longer paths first, as
    /// in [`Jar::header`].
    ///
    /// # Errors
    ///
    /// `AllocError`, for want of memory.
    pub fn get(&self, url: &Url, name: &str, now: DateTime) -> Result<Option<String>, AllocError>
        ensures { IfOk result (λ value. (rows : _)
            × AreGivenLongest self.now.rows url.now (civil_nanos now) rows
            × (option_map string_bytes value ≡ asked.first_value name.now rows)) }
    {
        let given = self.client.store().matches_longest(url, now)?;
        first_value(self.client.alloc(), given, name)
    }

    /// The rows that are listed at `now`.
    ///
    /// # Errors
    ///
    /// `AllocError`, for want of memory.
    pub fn listed(
        &self,
        which: &Which<'_>,
        now: DateTime,
    ) -> Result<Vec<&Cookie<'static>>, AllocError>
        ensures { IfOk result (λ rows.
            asked.AreListed which.now (civil_nanos now) self.now.rows (lent_rows rows.items)) }
    {
        rows_listed(self.client.alloc(), self.client.store(), which, now)
    }

    /// These rows for people or for programs, in their order.
    ///
    /// The table has a line of the columns' names, and a line for each row. Its fields are parted by tabs: domain with
    /// a dot in front where the hosts below it count, path, name, value, the moment of its expiry in UTC
    /// (`2027-01-01T00:00:00Z`) or `session`, in how long that is, in the largest whole one of days, hours, minutes and
    /// seconds (`35d`, `12h`, `59m`, `7s`) or `-`, `Secure` or `-`, `HttpOnly` or `-`. Of the texts each byte that
    /// isn't printable ASCII, and `%`, stands as `%` and two digits.
    ///
    /// The JSON is an array in one line (RFC 8259), and a line feed. A row is an object of `domain`, `hosts_below`,
    /// `path`, `name`, `value`, `expires`, `secure` and `http_only`: texts as the row has them, the expiry in whole
    /// seconds since 1970 or `null`, and flags. Control characters and marks of bidirectional text, on which a terminal
    /// acts, stand as `\u` and four digits.
    ///
    /// # Errors
    ///
    /// `AllocError` where there is no memory for the text.
    pub fn list(
        &self,
        which: &Which<'_>,
        layout: Layout,
        now: DateTime,
    ) -> Result<Shown, AllocError>
        ensures { IfOk result ShowsNoControl }
    {
        let rows = self.listed(which, now)?;
        let shown = match layout {
            Layout::Table => listing(self.client.alloc(), rows, now)?,
            Layout::Json => rows_json(self.client.alloc(), rows)?,
        };
        Ok(shown.finish())
    }

    /// What a `Set-Cookie` line from this URL means: which of these rules change it, and what they leave of it; its
    /// name and its value then, what each of its pieces says and whether it counts; what would become of it at `now` in
    /// a jar that is to be saved in this form and by which rule, and which requests would get it. Each is a line. Of
    /// what others sent each byte that isn't printable ASCII, and `%`, stands as `%` and two digits. It takes a copy of
    /// the jar, which stays as it is.
    ///
    /// # Errors
    ///
    /// `AllocError`, for want of memory.
    pub fn explain(
        &self,
        form: Form,
        rules: &Rules,
        url: &Url,
        line: &[u8],
        now: DateTime,
    ) -> Result<Shown, AllocError>
        ensures { IfOk result ShowsNoControl }
    {
        explain_line(&self.client, form, rules, url, line, now)
    }

    /// Takes the row of the domain's text, which has no dot in front, the path's text and the name out, whether or not
    /// it is expired, and says whether there was one. The others keep their order.
    pub fn remove(&mut self, domain: &str, path: &str, name: &str) -> bool
        ensures found { result ≡ is_some (found (key domain.now path.now name.now) self.old.rows) }
        ensures rest { self.new ≡ record self.old {
          rows = removed (key domain.now path.now name.now) self.old.rows;
        } }
        ensures kept { AreKept self.new.rows }
    {
        self.client.remove(domain, path, name).is_some()
    }

    /// Takes the row out that has this domain, path and name, as [`Jar::remove`] does. Where there is none, it takes
    /// the first out whose domain, path and name stand so in the table of [`Jar::list`], the domain with its dot in
    /// front or without. It says whether there was one. The others keep their order.
    ///
    /// # Errors
    ///
    /// `AllocError`, for want of memory. The jar is then as it was.
    #[tactic(auto, using(crate::proofs::AskingLemmas::meant_out, crate::proofs::AskingLemmas::none_out))]
    pub fn remove_named(&mut self, domain: &str, path: &str, name: &str) -> Result<bool, AllocError>
        ensures found { IfOk result (λ was.
            was ≡ is_some (asked.meant domain.now path.now name.now self.old.rows)) }
        ensures rest { IfOk result (λ _. self.new ≡ record self.old {
          rows = asked.without (asked.meant domain.now path.now name.now self.old.rows) self.old.rows;
        }) }
        ensures same { OnErr result (self.new ≡ self.old) }
        ensures kept { AreKept self.new.rows }
    {
        let (alloc, store) = (self.client.alloc(), self.client.store());
        let Some(cookie) = meant(alloc, store, domain, path, name)? else {
            return Ok(false);
        };
        let (domain, path, name) = key_texts(alloc, cookie)?;
        let _ = self.remove(domain.as_str(), path.as_str(), name.as_str());
        Ok(true)
    }

    /// Takes all rows out, and says how many there were. The list of public suffixes stays.
    ///
    /// # Errors
    ///
    /// `AllocError` where there is no memory to count them. The jar is then as it was.
    pub fn clear(&mut self) -> Result<usize, AllocError>
        ensures count { IfOk result (λ count. count ≡ length self.old.rows) }
        ensures ok { IfOk result (λ _. self.new ≡ record self.old { rows = [] }) }
        ensures same { OnErr result (self.new ≡ self.old) }
    {
        let count = rows_of(self.client.alloc(), self.client.store())?.len();
        self.client.clear();
        Ok(count)
    }

    /// Its store.
    pub fn store(&self) -> &CookieStore
        ensures store { result.now ≡ self.now }
        ensures kept { AreKept self.now.rows }
    {
        self.client.store()
    }
}

// Whether none of the rows is expired at `now`.
fn are_live(store: &CookieStore, now: DateTime) -> bool
    ensures all { result ≡ list_all (is_live (civil_nanos now)) store.now.rows }
    ensures rows { IsTrue result → live (civil_nanos now) store.now.rows ≡ store.now.rows }
{
    for cookie in store.iter_any() {
        if cookie.is_expired(now) {
            return false;
        }
    }
    true
}

// The store without the rows that are expired at `now`.
fn unexpired(alloc: Global, store: &CookieStore, now: DateTime) -> Result<CookieStore, AllocError>
    ensures { IfOk result (λ left. left.rows ≡ live (civil_nanos now) store.now.rows) }
{
    cookie_store::laws();
    // The rows of a store stand in groups.
    let _rows = store.iter_any();
    let rows = rows_of(alloc, store)?;
    Ok(placed(alloc, rows, false, now)?)
}

// How many rows of another store a jar that is saved in this form takes, and the store of its own rows and then these.
pub(crate) fn with_rows(
    alloc: Global,
    store: &CookieStore,
    other: &CookieStore,
    form: Form,
    now: DateTime,
) -> Result<(usize, CookieStore), AllocError>
    ensures { IfOk result (λ whole. (taken : _) × ArePicked (IsTaken form) other.now.rows taken
        × (whole.0 ≡ length taken) × (whole.1.rows ≡ loaded false (civil_nanos now) (store.now.rows ++ taken))) }
{
    let own = rows_of(alloc, store)?.len();
    let rows = rows_with(alloc, store, other, form)?;
    let taken = rows.len() - own;
    Ok((taken, placed(alloc, rows, false, now)?))
}
