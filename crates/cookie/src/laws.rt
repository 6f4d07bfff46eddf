//! Laws of the child jars, as what is read of a cookie right after it was added through the same
//! child jar. Each function changes nothing: its contract is the law.

ghost use Rattle.std.specs.Prelude.{◌≡◌, ℕ, List, length};
ghost use Rattle.std.specs.Str.{IsUtf8};
ghost use Rattle.cookie.specs.Key.{encryption_half};
ghost use Rattle.cookie.specs.Signing.{signing};
ghost use Rattle.cookie.specs.Sealing.{IsSealing};
ghost use Rattle.cookie.specs.Reading.{IsSigned, IsSealed};
ghost use Rattle.cookie.specs.RingLaws as rings;
ghost use Rattle.cookie.specs.Laws as spec;

use crate::prefix::Prefix;
use crate::secure::{Key, KeyRing};
use cookie_text::Cookie;

/// Once `add` of a prefixed jar added a cookie, `get` of its name gives its name and value.
pub fn prefixed_reads_back<P: Prefix>()
    ensures { spec.PrefixedReadsBack P.text P.conformed }
{}

/// Once `add` of a signed jar added a cookie, `get` of its name gives its name and value, where it
/// finds memory.
pub fn signed_reads_back(key: &Key)
    ensures { spec.SignedReadsBack key.now }
{
    seal::laws::lengths();
}

/// Once `add` of a private jar added a cookie, `get` of its name gives its name and value, where it
/// finds memory.
pub fn private_reads_back(key: &Key, cookie: &Cookie<'_>)
    ensures { spec.PrivateReadsBack key.now cookie.now }
{
    seal::laws::lengths();
    seal::laws::opening_is_the_converse();
    let _ = key.encryption();
    let _ = cookie.value();
}

/// A text is the signing of one value at most, and a sealing of one value at most under a key and
/// a name, whatever the nonce was.
pub fn one_value()
    ensures signed { (key v w : List ℕ) → signing key v ≡ signing key w → v ≡ w }
    ensures sealed { (key name v w text : List ℕ) → length (encryption_half key) ≡ 32
        → IsSealing key name v text → IsSealing key name w text → v ≡ w }
{
    seal::laws::lengths();
    seal::laws::opening_is_the_converse();
}

/// The signing of a value in UTF-8 is UTF-8, and so is every sealing: a reader of cookies reads them
/// as text.
pub fn texts_are_utf8()
    ensures signed { (key value : List ℕ) → IsUtf8 value → IsUtf8 (signing key value) }
    ensures sealed { (key name value text : List ℕ) → IsSealing key name value text → IsUtf8 text }
{}
/// A ring of one key is that key: what is read under it is what is read by the key, at place 0.
pub fn ring_of_one()
    ensures signed { rings.IsThatKey IsSigned }
    ensures sealed { rings.IsThatKey IsSealed }
{}

/// Once `add` of a signed jar of a ring added a cookie, `get_with_place` of its name gives its name and value at place
/// 0, where it finds memory, at any moment and whatever the earlier keys are.
pub fn signed_ring_reads_back(ring: &KeyRing)
    ensures { rings.SignedReadsBackUnder ring.now }
{
    seal::laws::lengths();
}

/// Once `add` of a private jar of a ring added a cookie, `get_with_place` of its name gives its name and value at place
/// 0, where it finds memory, at any moment and whatever the earlier keys are.
pub fn private_ring_reads_back(ring: &KeyRing, cookie: &Cookie<'_>)
    ensures { rings.PrivateReadsBackUnder ring.now cookie.now }
{
    seal::laws::lengths();
    seal::laws::opening_is_the_converse();
    let _ = ring.current().encryption();
    let _ = cookie.value();
}
