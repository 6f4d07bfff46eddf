//! Cookies for C, and for what calls C: a client behind a handle; a site's exchange and a cookie by itself without one.
//!
//! A text is a pointer, which is not null, and a length. A call answers the length of its answer, or the number of a
//! refusal, which is below 0.
#![tactic(auto)]

ghost use Rattle.std.specs.Prelude.{◌≡◌};
ghost use types.Logic.{sem};
ghost use base.Fml.{fex, fsep, ftrue};
ghost use Rattle.std.specs.Ptr.{points_to, room_at};
ghost use Rattle.cookie_store.specs.Rows.{key};
ghost use Rattle.fonnalich_c.specs.Exchange.{IsExchange, IsNoExchange, IsRingExchange, IsNoRingExchange};
ghost use Rattle.fonnalich_c.specs.Handle.{IsFresh, Acts, ActsOnReceipt, Shares, view};
ghost use Rattle.fonnalich_c.specs.One.{ActsOnOne};
ghost use Rattle.fonnalich_c.specs.Plain.{TellsPlain};
ghost use Rattle.fonnalich_c.specs.Parts.{GivesParts, IsPrinted, IsUnprinted};
ghost use Rattle.cookie_client.specs.Version.{version};
ghost use Rattle.fonnalich_c.specs.Room.{Gives, IsWritten};
ghost use Rattle.fonnalich_c.specs.Shard.{IsShardBy, IsShardAtText, HasNoShard, HasNoShardAt};
ghost use Rattle.fonnalich_c.specs.Suffix.{IsSuffixOf, HasNoSuffix};
ghost use Rattle.fonnalich_c.specs.Words.{text_of};
ghost use Rattle.fonnalich_c.specs.contracts.held.Held as held;

mod apart;
mod attributes;
mod by_list;
mod command;
mod control;
mod exchange;
mod exporting;
mod given;
mod held;
mod importing;
mod item;
mod listing;
mod nonce;
mod one;
mod page;
mod plain;
mod refusal;
mod ring;
mod room;
mod rule;
mod second;
mod shard;
mod started;
mod suffix;
mod task;
mod together;
mod word;
mod words;

use crate::apart::apart;
use crate::attributes::Attributes;
use crate::exchange::{exchange, ring_exchange};
use crate::held::{Held, fresh, let_go, pick_one, receive_for, share, work};
use crate::plain::plain_number;
use crate::room::write;
use crate::shard::{shard, shard_at};
use crate::suffix::suffix;
use crate::together::{Texts, together};
use crate::words::text_of;
use cookie_client::version;
use std::alloc::Global;

/// How many bytes the place of a handle has, which stands at a multiple of 8.
const PLACE: usize = 1024;

const _: () = prove!(size_of::<Held>() <= PLACE);

const _: () = prove!(align_of::<Held>() <= 8);

/// How many bytes the place of a handle has, which stands at a multiple of 8.
#[unsafe(no_mangle)]
pub extern "C" fn fonnalich_size() -> usize
    ensures { result ≡ 1024 }
{
    PLACE
}

/// The version of the library, as `0.9.0`.
#[unsafe(no_mangle)]
pub extern "C" fn fonnalich_version(out: &mut [u8]) -> isize
    ensures { IsWritten version out.old out.new result }
{
    write(version().as_bytes(), out)
}

/// What the number of a refusal says; nothing of another.
#[unsafe(no_mangle)]
pub extern "C" fn fonnalich_text(number: i64, out: &mut [u8]) -> isize
    ensures { IsWritten (text_of number) out.old out.new result }
{
    write(text_of(number).as_bytes(), out)
}

/// Begins a handle at this place, without a client, behind the rules of browsers. It takes no memory.
#[unsafe(no_mangle)]
pub unsafe extern "C" fn fonnalich_place(alloc: Global, at: *mut u8)
    requires* { sem 𝓛 (room_at held.the_row at) }
    ensures* { sem 𝓛 (fex held.the_row.Denot (λ w. fsep
        (fex (IsFresh (view w)) (λ _. ftrue)) (points_to held.the_row at w))) }
{
    let place = at as *mut Held;
    place.write(fresh(alloc));
}

/// Does what a word says by the handle at this place.
#[unsafe(no_mangle)]
pub unsafe extern "C" fn fonnalich_act(
    alloc: Global,
    at: *mut u8,
    word: u32,
    number: i64,
    subject: &[u8],
    text: &[u8],
    out: &mut [u8],
) -> isize
    ghost value: { Held }
    requires* { sem 𝓛 (points_to held.the_row at value) }
    ensures* { sem 𝓛 (fex held.the_row.Denot (λ w. fsep
        (fex (Acts word (record { number = number; subject = subject.now; page = text.now; text = text.now })
        (view value) out.old (view w) out.new result) (λ _. ftrue))
        (points_to held.the_row at w))) }
{
    work(
        alloc,
        &mut *(at as *mut Held),
        word,
        number,
        subject,
        text,
        out,
    )
}

/// Does what a word says with the cookie of this domain, path and name by the handle at this place: 0 tells it, unless
/// it is expired at the second, and 1 takes it out, and tells it. Nothing is told where there is none.
#[unsafe(no_mangle)]
pub unsafe extern "C" fn fonnalich_one(
    alloc: Global,
    at: *mut u8,
    word: u32,
    second: i64,
    domain: &[u8],
    path: &[u8],
    name: &[u8],
    out: &mut [u8],
) -> isize
    ghost value: { Held }
    requires* { sem 𝓛 (points_to held.the_row at value) }
    ensures* { sem 𝓛 (fex held.the_row.Denot (λ w. fsep
        (fex (ActsOnOne word second (key domain.now path.now name.now) (view value) out.old (view w) out.new
        result) (λ _. ftrue))
        (points_to held.the_row at w))) }
{
    pick_one(
        alloc,
        &mut *(at as *mut Held),
        word,
        second,
        domain,
        path,
        name,
        out,
    )
}

/// Takes the lines of an answer from this URL, where it is said what started the request: the user by 0, the page by 1,
/// and by 2 the page that navigates the top level. Behind the rules an answer to a request of another site's page, but
/// for such a navigation, sets no cookie that is `Strict` or `Lax`.
///
/// Which page that is, [`user_agent::Initiator`] says: the document at the top, where the one that starts the request
/// and each one above it are of its site; else any URL without a host, as `data:,`.
#[unsafe(no_mangle)]
pub unsafe extern "C" fn fonnalich_receive_for(
    alloc: Global,
    at: *mut u8,
    started: u32,
    second: i64,
    url: &[u8],
    page: &[u8],
    lines: &[u8],
    out: &mut [u8],
) -> isize
    ghost value: { Held }
    requires* { sem 𝓛 (points_to held.the_row at value) }
    ensures* { sem 𝓛 (fex held.the_row.Denot (λ w. fsep
        (fex (ActsOnReceipt started
        (record { number = second; subject = url.now; page = page.now; text = lines.now }) (view value) out.old
        (view w) out.new result) (λ _. ftrue))
        (points_to held.the_row at w))) }
{
    receive_for(
        alloc,
        &mut *(at as *mut Held),
        started,
        second,
        url,
        page,
        lines,
        out,
    )
}

/// Has the handle at this place keep the list that the other keeps, and answers 0. They share its rules, which are
/// given back with the last handle and the last client that has them.
#[unsafe(no_mangle)]
pub unsafe extern "C" fn fonnalich_share(at: *mut u8, other: *mut u8) -> isize
    ghost values: { Held × Held }
    requires* { sem 𝓛 (fsep (points_to held.the_row at values.0) (points_to held.the_row other values.1)) }
    ensures* { sem 𝓛 (fex held.the_row.Denot (λ w. fsep
        (fex (Shares values.1.list (view values.0) (view w) result) (λ _. ftrue))
        (fsep (points_to held.the_row at w) (points_to held.the_row other values.1)))) }
{
    share(&mut *(at as *mut Held), &mut *(other as *mut Held))
}

/// Ends the handle at this place, and gives back all memory that it took.
#[unsafe(no_mangle)]
pub unsafe extern "C" fn fonnalich_end(at: *mut u8)
    ghost value: { Held }
    requires* { sem 𝓛 (points_to held.the_row at value) }
    ensures* { sem 𝓛 (room_at held.the_row at) }
{
    let place = at as *mut Held;
    let_go(place.read());
}

/// One exchange of a site: what a session with this key on this header answers to the commands, a line each.
///
/// It needs no handle and keeps nothing: an answer that has no room is made again by the same call with more, as long
/// as its nonces are the same. Each set by `Sealed` takes the next twelve bytes of `nonces`.
#[unsafe(no_mangle)]
pub extern "C" fn fonnalich_exchange(
    alloc: Global,
    key: &[u8],
    header: &[u8],
    second: i64,
    commands: &[u8],
    nonces: &[u8],
    out: &mut [u8],
) -> isize
    ensures { Gives (IsExchange key.now header.now second commands.now nonces.now)
        (IsNoExchange key.now header.now second commands.now nonces.now) out.old out.new result }
{
    match exchange(alloc, key, header, second, commands, nonces) {
        Ok(answer) => write(&answer, out),
        Err(refusal) => refusal.number(),
    }
}

/// The same on a ring of keys: the current key and, behind it, earlier ones, each of which counts until the second of
/// its end, or, where that is 2^63 - 1, at each moment. What is set is signed or sealed by the current key, and what
/// each of them that counts signed or sealed is read, with the place of that key.
///
/// A sealed cookie takes a nonce whichever sealed way it is set in.
#[unsafe(no_mangle)]
pub extern "C" fn fonnalich_exchange_on_ring(
    alloc: Global,
    keys: &[u8],
    ends: &[i64],
    header: &[u8],
    second: i64,
    commands: &[u8],
    nonces: &[u8],
    out: &mut [u8],
) -> isize
    ensures { Gives (IsRingExchange keys.now ends.now header.now second commands.now nonces.now)
        (IsNoRingExchange keys.now ends.now header.now second commands.now nonces.now) out.old out.new result }
{
    match ring_exchange(alloc, keys, ends, header, second, commands, nonces) {
        Ok(answer) => write(&answer, out),
        Err(refusal) => refusal.number(),
    }
}

/// The public suffix of a host by the list of a text, which is read anew at each call.
#[unsafe(no_mangle)]
pub extern "C" fn fonnalich_suffix(alloc: Global, list: &[u8], host: &[u8], out: &mut [u8]) -> isize
    ensures { Gives (IsSuffixOf list.now host.now) (HasNoSuffix list.now host.now) out.old out.new result }
{
    match suffix(alloc, list, host) {
        Ok(suffix) => write(suffix, out),
        Err(refusal) => refusal.number(),
    }
}

/// The shard of a host by the list of a text, which is read anew at each call: the shortest of the host and the texts
/// behind its dots that isn't empty and is no public suffix of the list, and else the whole host.
#[unsafe(no_mangle)]
pub extern "C" fn fonnalich_shard(alloc: Global, list: &[u8], host: &[u8], out: &mut [u8]) -> isize
    ensures { Gives (IsShardBy list.now host.now) (HasNoShard list.now host.now) out.old out.new result }
{
    match shard(alloc, list, host) {
        Ok(shard) => write(shard, out),
        Err(refusal) => refusal.number(),
    }
}

/// The shard of a URL's host by the list of a text, which is read anew at each call.
#[unsafe(no_mangle)]
pub extern "C" fn fonnalich_shard_of_url(
    alloc: Global,
    list: &[u8],
    url: &[u8],
    out: &mut [u8],
) -> isize
    ensures { Gives (IsShardAtText list.now url.now) (HasNoShardAt list.now url.now) out.old out.new result }
{
    match shard_at(alloc, list, url) {
        Ok(shard) => write(shard.as_bytes(), out),
        Err(refusal) => refusal.number(),
    }
}

/// Whether a text is a plain URL, which each program reads as the same web address: 1 where it is, 0 where it isn't.
#[unsafe(no_mangle)]
pub extern "C" fn fonnalich_is_plain_url(alloc: Global, text: &[u8]) -> isize
    ensures { TellsPlain text.now result }
{
    plain_number(alloc, text)
}

/// Reads a cookie into its parts, its name and value percent-decoded or as they stand: the items of its name, its
/// value, its path and its domain, and its attributes.
///
/// Where the items have no room the attributes stay as they were too, and the same call with more makes both again.
#[unsafe(no_mangle)]
pub extern "C" fn fonnalich_parse(
    alloc: Global,
    decode: bool,
    text: &[u8],
    attributes: &mut Attributes,
    out: &mut [u8],
) -> isize
    ensures { GivesParts decode text.now attributes.old out.old attributes.new out.new result }
{
    match apart(alloc, decode, text) {
        Ok((texts, read)) => {
            if texts.len() <= out.len() {
                *attributes = read;
            }
            write(&texts, out)
        }
        Err(refusal) => refusal.number(),
    }
}

/// Prints the cookie of these parts, its name and value percent-encoded or as they stand.
#[unsafe(no_mangle)]
pub extern "C" fn fonnalich_print(
    alloc: Global,
    encode: bool,
    attributes: &Attributes,
    name: &[u8],
    value: &[u8],
    path: &[u8],
    domain: &[u8],
    out: &mut [u8],
) -> isize
    ensures { Gives
        (IsPrinted encode attributes.now
        (record { name = name.now; value = value.now; path = path.now; domain = domain.now }))
        (IsUnprinted attributes.now
        (record { name = name.now; value = value.now; path = path.now; domain = domain.now }))
        out.old out.new result }
{
    let texts = Texts {
        name,
        value,
        path,
        domain,
    };
    match together(alloc, encode, attributes, texts) {
        Ok(line) => write(line.as_bytes(), out),
        Err(refusal) => refusal.number(),
    }
}
