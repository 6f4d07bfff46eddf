//! What holds of every play on the rows of a store (RFC 6265, sections 5.2 to 5.4).
ghost use Rattle.cookie_client.specs.HostRows as rows;
ghost use Rattle.cookie_run.specs.HostRows.{PlaysHoldRightly};
ghost use Rattle.cookie_run.specs.KeepingLaws as kept;
ghost use Rattle.cookie_run.specs.Laws as law;
ghost use Rattle.cookie_run.specs.RingHeadline as ring_head;
ghost use Rattle.cookie_run.specs.RingOfOne as ring_of_one_key;
ghost use Rattle.cookie_run.specs.RingPlain as ring_plain;
ghost use Rattle.cookie_run.specs.ScriptLaws as script;
ghost use Rattle.cookie_run.specs.Strangers as stranger;

use cookie::Key;
use cookie::laws::{one_value, texts_are_utf8};
pub use cookie_client::laws::{
    answers_are_confined, ending_values_end, forms_are_apart, prefixes_are_seen,
    refused_lines_change_nothing, restarts_keep_keys, restarts_keep_rows, rows_are_one,
    saved_rows_are_kept, sent_lines_are_taken, sessions_of_one_key, sets_are_plain,
};
use cookie_text::laws::{
    bound_read_again, encoded_records_read_back, joined_pairs_split, one_outcome, pairs_read_again,
};
use saved_text::laws::{dates_are_of_one_moment, printed_dates_are_read};

/// At each of its https requests a site reads, in the way it was set, what its own delivered
/// commands leave: the last set, not removed, not dead, after a restart only what had a death.
/// `until` says it as far as a play came that stopped.
pub fn sites_read_their_own(key: &Key)
    ensures whole { law.EachPlayIsRead key.now }
    ensures until { law.EachStoppedPlayIsRead key.now }
{
    encoded_records_read_back();
    pairs_read_again();
    one_value();
    texts_are_utf8();
    let _ = key.encryption();
}

/// By `__Host-` each host that answers at https by sessions alone reads at its https requests what its own
/// delivered commands leave, whatever other hosts answer, those that share a parent domain with it too, and
/// whatever is answered in its name over another scheme. `until` says it as far as a play came that stopped.
/// `setters` and `setters_until` ask less of the host: at https it may answer without a session, with lines
/// that don't read as cookies whose decoded name begins so.
pub fn hosts_read_their_own(key: &Key)
    ensures whole { law.EachPlayIsReadByHost key.now }
    ensures until { law.EachStoppedPlayIsReadByHost key.now }
    ensures setters { law.EachPlayIsReadBySetters key.now }
    ensures setters_until { law.EachStoppedPlayIsReadBySetters key.now }
{
    encoded_records_read_back();
    pairs_read_again();
    one_value();
    texts_are_utf8();
    let _ = key.encryption();
}

/// Where a play came to its end, the live rows under a site's host are what is live of the site,
/// each stored name once, with its value, its signing or a sealing; the header of a request to the
/// site at https, split and decoded, gives just these, and no error but want of memory.
pub fn rows_are_the_sites(key: &Key)
    ensures { law.RowsAreTheSites key.now }
{
    encoded_records_read_back();
    pairs_read_again();
    joined_pairs_split();
    one_value();
    texts_are_utf8();
    let _ = key.encryption();
}

/// Every row that a play left comes back where it is saved and loaded again: the printed text of its raw
/// cookie reads, and domain, path, name, value and death are the same, whatever else of that cookie
/// changes.
pub fn rows_come_back(key: &Key)
    ensures { kept.RowsComeBack key.now }
{
    pairs_read_again();
}

/// A script says of moments and removals what a play says of them: a line whose moment is before the last
/// is what a play calls `Back`, and else its moment follows; a session of 1971 or later refuses a removal
/// as its line is refused, and that refusal is what a play reads.
pub fn scripts_refuse_as_plays()
    ensures back { script.LinesGoBack }
    ensures refused { script.RemovalsAreRefused }
    ensures read { script.RemovalsRead }
{}

/// What a host is sent is the same without the answers of hosts that it isn't related to, whatever
/// bytes they hold: each header that a play reads, where no exchange before it is with a related host,
/// equals the header after those steps alone that concern its host; without a host it is empty. `until`
/// says it as far as a play came that stopped.
pub fn strangers_dont_show()
    ensures whole { stranger.EachPlayIsUntouched }
    ensures until { stranger.EachStoppedPlayIsUntouched }
{
    one_outcome();
    cookie_store::laws();
}

/// Every row that a client holds whose name, percent-decoded, begins with `__Host-` is of one host
/// alone, of the path `/` from an attribute, and its cookie conforms to the prefix: an answer keeps that
/// so, a restart does, and so every play. Loading drops none of the rows that were saved of a client.
pub fn host_rows_are_held_rightly()
    ensures answers { rows.AnswersHoldRightly }
    ensures restarts { rows.RestartsHoldRightly }
    ensures saved { rows.SavedRowsHoldRightly }
    ensures plays { PlaysHoldRightly }
{
    pairs_read_again();
    bound_read_again();
    saved_rows_are_kept();
}

/// What the commands of a session on a ring leave, some commands of a session with its current key leave that sign and
/// seal nothing; and what a play on a ring leaves, whose ring is rotated as it goes, a play of such commands leaves,
/// whatever its key.
pub fn ring_commands_are_plain()
    ensures commands { ring_plain.RingCommandsArePlain }
    ensures plays { ring_plain.RingPlaysArePlain }
{
    texts_are_utf8();
}

/// At each of its https requests a site whose sessions open on a ring of keys reads, under the ring as it is then,
/// what its own delivered commands leave: what was kept under the current key with its value, at place 0; what was
/// kept under an earlier key that counts with its value, at its place, but where the key of a place before it gives
/// some, which for a signed value is its value too; a value until a moment till that moment, and as nothing from then
/// on. Nothing else is read than what the first key gives that counts and gives any, of a text that stands for what
/// the site holds.
///
/// `hosts` says so of names that are stored with `__Host-` in front, whatever other hosts answer, and `setters` does
/// by the weaker premise of [`hosts_read_their_own`]; `ends` says that a value until a moment is dead from then on.
pub fn ring_sites_read_their_own()
    ensures sites { ring_head.EachRingPlayIsRead }
    ensures hosts { ring_head.EachRingPlayIsReadByHost }
    ensures setters { ring_head.EachRingPlayIsReadBySetters }
    ensures ends { ring_head.EndsAreDeaths }
{
    encoded_records_read_back();
    pairs_read_again();
    one_value();
    texts_are_utf8();
    printed_dates_are_read();
    dates_are_of_one_moment();
    seal::laws::lengths();
}

/// A play on a ring of one key, without values that end and without rotations, is a play with that key: it leaves the
/// same rows and reads the same, each value at place 0. So the headlines of `play` hold of it, word for word.
pub fn ring_plays_of_one_key()
    ensures there { ring_of_one_key.AreThatPlay }
    ensures back { ring_of_one_key.IsSuchAPlay }
{
    sessions_of_one_key();
}
