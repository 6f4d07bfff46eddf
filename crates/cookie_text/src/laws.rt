//! Laws that join reading and printing. Each function changes nothing: its contract is the law.
ghost use Rattle.std.specs.Prelude.{ℕ, ◌≡◌, ◌<◌, List, All, Result, Ok, length, true, IsTrue, IfSome};
ghost use Rattle.jiff_core.specs.Timestamp.{IsDurationNanos};
ghost use Rattle.cookie_text.specs.Again.{BoundReadAgain, TextsGivePairs, PairsReadAgain};
ghost use Rattle.cookie_text.specs.declared.error.ParseError.{ParseError as Refusals};
ghost use Rattle.cookie_text.specs.Decoding.{ReadsEncoded};
ghost use Rattle.cookie_text.specs.Normal.{IsReadable};
ghost use Rattle.percent_encoding.specs.AsciiSet.{should_percent_encode};
ghost use Rattle.cookie_text.specs.declared.escape.TheConstants.{PROFILE};
ghost use Rattle.cookie_text.specs.Date.{Stamp, IsDateText};
ghost use Rattle.cookie_text.specs.Printing.{encoded, escaped, is_escaped, shown_text};
ghost use Rattle.percent_encoding.specs.Percent.{percent_encode};
ghost use Rattle.cookie_text.specs.Reading.{ReadsPlain};
ghost use Rattle.cookie_text.specs.ReadingBack.{GivesPair, IsNamed, Pairwise, ReadsBack, joined};
ghost use Rattle.cookie_text.specs.Record.{Record, Seen};
ghost use Rattle.cookie_text.specs.Splitting.{Encoded, GivesAll, cookie_texts};
ghost use Rattle.cookie_text.specs.declared.expiration.Expiration.TheVariants as ends;
ghost use Rattle.jiff.specs.Types.{DateTime as Moment};
ghost use Rattle.std.specs.declared.cmp.Ordering.TheVariants.{Less};

use crate::cookie::Cookie;
use crate::expiration::Expiration;

/// The bytes that [`Cookie::encoded`] escapes in a name or value: the control characters, every
/// byte past ASCII, the space, and `` " < > ` # ? { } / : ; = @ [ \ ] ^ | % ( ) , ``. The set that
/// the code hands to its library has these bytes, and the library writes what is printed.
pub fn profile_is_the_list()
    ensures bytes { (b : ℕ) → should_percent_encode PROFILE b ≡ is_escaped b }
    ensures texts { (text : List ℕ) → percent_encode PROFILE text ≡ escaped text }
{}

/// A text reads as one outcome by [`Cookie::parse`], and by [`Cookie::parse_encoded`] as one cookie,
/// where there is memory for it.
pub fn one_outcome()
    ensures plain { (text : List ℕ) (o p : Result Seen Refusals)
        → ReadsPlain text o → ReadsPlain text p → o ≡ p }
    ensures decoded { (text : List ℕ) (s t : Seen)
        → ReadsEncoded text (Ok s) → ReadsEncoded text (Ok t) → s.cookie ≡ t.cookie }
{}

/// Name and value of what a text reads as, by [`Cookie::parse`], read back from its printed text, which
/// always reads, whatever attributes it has.
pub fn pairs_read_again()
    ensures read { TextsGivePairs }
    ensures again { PairsReadAgain }
{}

/// A cookie that is Secure, with a path and without Domain, reads so again from its printed text,
/// whatever other attributes it has: where name and value are as a text gives them, and the path holds
/// no semicolon and no white space at an end.
pub fn bound_read_again()
    ensures { BoundReadAgain }
{}

/// A text shows one date at most, whatever form it has.
pub fn one_date()
    ensures { (text : List ℕ) (s t : Stamp) → IsDateText text s → IsDateText text t → s ≡ t }
{}

/// What [`Cookie::encoded`] prints reads back, by [`Cookie::parse`], as the cookie's normal form
/// with its name and value still escaped.
///
/// The name isn't empty, path and `domain()` hold no semicolon and no white space at an end,
/// `domain()` isn't empty and begins with no dot, and the expiry is of the year 100 or later.
pub fn encoded_reads_back(cookie: &Cookie<'_>)
    requires { IsReadable cookie.now.cookie }
    ensures { (o : Result Seen Refusals) → ReadsPlain (encoded cookie.now.cookie) o
        → ReadsBack cookie.now.cookie o }
{
    // The length's type bounds its seconds, and so the digits that are read.
    let _ = cookie.max_age();
}

/// The same of every record, where its max-age, if it has one, is a length that a
/// [`jiff::SignedDuration`] can be: for proofs that have no cookie at hand.
pub fn encoded_records_read_back()
    ensures { (r : Record) → IsReadable r → IfSome r.max_age IsDurationNanos
        → (o : Result Seen Refusals) → ReadsPlain (encoded r) o → ReadsBack r o }
{}

/// What `encoded().stripped()` prints of a cookie whose name isn't empty reads, by
/// [`Cookie::parse_encoded`], as a cookie of that name and value.
pub fn encoded_pair_reads_back(cookie: &Cookie<'_>)
    requires { 0 < length cookie.now.cookie.name }
    ensures { (o : Result Seen Refusals)
        → ReadsEncoded (shown_text (record { cookie = cookie.now.cookie; encode = true; strip = true })) o
        → GivesPair cookie.now.cookie.name cookie.now.cookie.value o }
{
    // Both are texts, which is why they decode to UTF-8.
    let _ = cookie.name();
    let _ = cookie.value();
}

/// Such texts, joined by `; `, give by `Cookie::split_parse_encoded` the same names and values in
/// their order, and no error but want of memory.
pub fn joined_pairs_split()
    ensures { (pairs : List (List ℕ × List ℕ)) → All (λ p. IsNamed p.0 p.1) pairs
        → (outcomes : List (Result Seen Refusals))
        → Pairwise ReadsEncoded (cookie_texts (joined pairs)) outcomes
        → Pairwise (λ p o. GivesPair p.0 p.1 o) pairs outcomes }
{}

/// What `Cookie::split_parse_encoded` of such texts, joined by `; `, gives in all by
/// [`crate::SplitCookies::next`]: the same names and values in their order, and no error but want of
/// memory.
pub fn joined_pairs_iterate()
    ensures { (pairs : List (List ℕ × List ℕ)) → All (λ p. IsNamed p.0 p.1) pairs
        → (outcomes : List (Result Seen Refusals))
        → GivesAll (record { way = Encoded; left = cookie_texts (joined pairs) }) outcomes
        → Pairwise (λ p o. GivesPair p.0 p.1 o) pairs outcomes }
{}

/// The end of the session is after every moment, in the order of [`Expiration`].
pub fn session_is_last()
    ensures { (moment : Moment) → ⟦<Expiration as Ord>⟧.cmp (ends.DateTime moment) ends.Session ≡ Less }
{}
