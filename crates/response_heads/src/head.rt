//! Heads, and the heads of a text.
ghost use Rattle.std.specs.Prelude.{◌≡◌, ◌≤◌, ◌<◌, ◌⊎◌, ◌+◌, ◌++◌, ◌∷◌, [], codes, filter, map, length, take, IfOk};
ghost use Rattle.std.specs.Prelude.{MatchOption, None, OnOk, Some, if◌then◌else◌};
ghost use Rattle.std.specs.List.{list_any};
ghost use Rattle.std.specs.Str.{bytes_eq};
ghost use Rattle.std.specs.Char.{to_ascii_lowercase};
ghost use Rattle.response_heads.specs.Heads as spec;
ghost use Rattle.response_heads.specs.Lines as spec_lines;
ghost use Rattle.response_heads.specs.Read.{announces_content, fault, field_text, head_text, is_location, is_named};
ghost use Rattle.response_heads.specs.Read.{is_fold, is_redirection, is_value, located, location_text};
ghost use Rattle.response_heads.specs.Read.{locations, requires_proxy_authentication, says_content, set_cookie_lines};

use crate::error::{LineFault, StopFault};
use crate::field::{begins_white, fault_of, has_control, read_field};
use crate::folds::unfolded;
use crate::lines::Lines;
use crate::status::{begins_head, status_of};
use std::alloc::{AllocError, Global};

/// A field of a head.
#[derive(Clone, Copy, Debug)]
pub struct Field<'a> {
    /// As it stands: the case of its letters doesn't count. Empty where the line is no field line.
    pub name: &'a [u8],
    /// Of its line, without the spaces and tabs at both its ends; any bytes but carriage returns, line feeds and zeros.
    /// The whole line where it is no field line, as a folded one isn't, which goes on with the field before it.
    pub value: &'a [u8],
}

/// A field that some program may read as a `Location`.
#[derive(Clone, Copy, Debug)]
pub struct Location<'a> {
    /// The number of its line, counted from 1.
    pub line: u128,
    /// As it stands: without a name where the line is no field line.
    pub field: Field<'a>,
}

/// The head of a response.
#[derive(Debug, Drop)]
pub struct Head<'a> {
    /// The number of its status line, counted from 1.
    pub number: usize,
    /// Three digits: 0 to 999.
    pub status: u16,
    /// The fields in their order, one for each line after the status line. A line that is no field line stands for one
    /// without a name.
    pub fields: Vec<Field<'a>>,
}

impl<'a> Field<'a> {
    // Whether the field has this name, which is in lower case.
    fn is_named(&self, name: &[u8]) -> bool
        ensures { result ≡ is_named (map to_ascii_lowercase name.now) (field_text self.now) }
    {
        self.name.eq_ignore_ascii_case(name)
    }

    // Whether the field says that content follows.
    fn says_content(&self) -> bool
        ensures { result ≡ says_content (field_text self.now) }
    {
        self.is_named(b"content-length") || self.is_named(b"transfer-encoding")
    }

    // Whether the line goes on with the field before it.
    pub(crate) fn is_fold(&self) -> bool
        ensures { result ≡ is_fold (field_text self.now) }
    {
        self.name.is_empty() && begins_white(self.value)
    }

    // Whether some program may read the field as a Location.
    fn is_location(&self) -> bool
        ensures { result ≡ is_location (field_text self.now) }
    {
        self.is_named(b"location")
            || self.name.is_empty() && (begins_white(self.value) || begins_as_location(self.value))
    }

    /// What is wrong with the line, where it is no field line (RFC 9112, section 5).
    pub fn fault(&self) -> Option<LineFault>
        ensures { result ≡ fault (field_text self.now) }
    {
        if self.name.is_empty() {
            fault_of(self.value)
        } else {
            None
        }
    }
}

fn begins_as_location(line: &[u8]) -> bool
    ensures { result ≡ bytes_eq (map to_ascii_lowercase (take 8 line.now)) (codes "location") }
{
    match line.get(..8) {
        Some(front) => front.eq_ignore_ascii_case(b"location"),
        None => false,
    }
}

// Adds a line that holds no control character, and leaves out any other.
fn push_value(lines: &mut Vec<Vec<u8>>, line: Vec<u8>) -> Result<(), AllocError>
    ensures { OnOk result (map (λ line. line.items) lines.new.items
        ≡ map (λ line. line.items) lines.old.items ++ filter is_value (line.items ∷ [])) }
{
    if has_control(&line) {
        return Ok(());
    }
    lines.push(line)?;
    Ok(())
}

// Adds the field of this line, where it may be a Location.
fn push_location<'a>(
    found: &mut Vec<Location<'a>>,
    line: u128,
    field: &Field<'a>,
) -> Result<(), AllocError>
    ensures { OnOk result (map location_text found.new.items
        ≡ map location_text found.old.items ++ located line (field_text field.now ∷ [])) }
{
    if field.is_location() {
        found.push(Location {
            line,
            field: *field,
        })?;
    }
    Ok(())
}

impl<'a> Head<'a> {
    /// The values of the `Set-Cookie` fields, in their order (RFC 6265, section 4.1), each with the folded lines after
    /// it, joined to it by single spaces (RFC 9112, section 5.2). One that then holds a carriage return or a zero byte
    /// is none.
    ///
    /// # Errors
    ///
    /// `AllocError`, for want of memory.
    pub fn set_cookie_lines(&self, alloc: Global) -> Result<Vec<Vec<u8>>, AllocError>
        ensures { IfOk result (λ lines.
            map (λ line. line.items) lines.items ≡ set_cookie_lines (head_text self.now)) }
    {
        let mut lines = Vec::new(alloc);
        let mut left = self.fields.as_slice();
        while let [field, behind @ ..] = left {
            if field.is_named(b"set-cookie") {
                push_value(&mut lines, unfolded(alloc, field.value, behind)?)?;
            }
            left = behind;
        }
        Ok(lines)
    }

    /// The `Location` fields, where the status is one of a redirection, 300 to 399 (RFC 9110, sections 10.2.2 and
    /// 15.4), and each line that is no field line and that another program may read as one.
    ///
    /// # Errors
    ///
    /// `AllocError`, for want of memory.
    pub fn locations(&self, alloc: Global) -> Result<Vec<Location<'a>>, AllocError>
        ensures { IfOk result (λ found. map location_text found.items ≡ locations (head_text self.now)) }
    {
        let mut found = Vec::new(alloc);
        if !is_redirection(self.status) {
            return Ok(found);
        }
        let mut left = self.fields.as_slice();
        let mut line = self.number as u128 + 1;
        while let [field, behind @ ..] = left {
            push_location(&mut found, line, field)?;
            left = behind;
            line += 1;
        }
        Ok(found)
    }

    // Whether content follows, by the fields.
    pub(crate) fn announces_content(&self) -> bool
        ensures { result ≡ announces_content (head_text self.now) }
    {
        say_content(&self.fields)
    }
}

// Whether one of the fields says that content follows.
fn say_content(fields: &[Field<'_>]) -> bool
    ensures { result ≡ list_any (λ field. says_content (field_text field)) fields.now }
{
    fields.iter().any(|field| field.says_content())
}

/// Whether a proxy wants to know who asks, and nothing else can have answered (RFC 9110, section 15.5.8).
pub(crate) fn requires_proxy_authentication(status: u16) -> bool
    ensures { result ≡ requires_proxy_authentication status }
{
    status == 407
}

fn is_redirection(status: u16) -> bool
    ensures { result ≡ is_redirection status }
{
    300 <= status && status < 400
}

/// What is found in a text.
#[derive(Debug, Drop)]
pub struct Found<'a> {
    /// Its heads, in their order.
    pub heads: Vec<Head<'a>>,
    /// The line at which reading stopped, if one stopped it: its number, counted from 1, and why.
    pub stop: Option<(usize, StopFault)>,
}

/// The heads of a text, one directly after another. A head begins at a status line and ends at an empty line; all
/// that follows one is passed over, as trailers and bodies are. A line ends at a line feed, and a carriage
/// return before that is no part of it.
///
/// A line that begins with `HTTP/`, in any case of its letters, and is no whole head's status line, or doesn't stand
/// directly after a head, stops all reading: none can say whose head that would be. Whoever takes something of the
/// heads tells the line of [`Found::stop`], since from it on all is left out.
///
/// # Errors
///
/// `AllocError`, for want of memory.
pub fn heads<'a>(alloc: Global, text: &'a [u8]) -> Result<Found<'a>, AllocError>
    ensures { IfOk result (λ found. spec.GivesHeads text.now (map head_text found.heads.items) found.stop) }
{
    let mut heads = Vec::new(alloc);
    let mut lines = Lines::of(text);
    while let Some(line) = lines.next() {
        if !begins_head(line) {
            return Ok(Found {
                heads,
                stop: stop_behind(&mut lines),
            });
        }
        let number = lines.taken;
        let Some(status) = status_of(line) else {
            return Ok(Found {
                heads,
                stop: Some((number, StopFault::Status)),
            });
        };
        let Some(fields) = read_fields(alloc, &mut lines)? else {
            return Ok(Found {
                heads,
                stop: Some((number, StopFault::Unended)),
            });
        };
        heads.push(Head {
            number,
            status,
            fields,
        })?;
    }
    Ok(Found {
        heads,
        stop: stop_at_end(&lines, StopFault::Status),
    })
}

// Where reading stops after a line that is passed over.
fn stop_behind(lines: &mut Lines<'_>) -> Option<(usize, StopFault)>
    ensures { spec.StopsBehind lines.old.taken (spec_lines.whole_lines lines.old.rest.now)
        (spec_lines.cut_end lines.old.rest.now) result }
{
    while let Some(line) = lines.next() {
        if begins_head(line) {
            return Some((lines.taken, StopFault::Between));
        }
    }
    stop_at_end(lines, StopFault::Between)
}

// Where reading stops at what is left of a text, which lacks a line end.
fn stop_at_end(lines: &Lines<'_>, fault: StopFault) -> Option<(usize, StopFault)>
    ensures { result ≡ (if spec_lines.begins_head lines.now.rest.now
        then Some (lines.now.taken + 1, fault) else None) }
{
    if begins_head(lines.rest) {
        Some((lines.taken + 1, fault))
    } else {
        None
    }
}

// What a line of a head gives that isn't empty: its field, or one without a name.
fn field_of(line: &[u8]) -> Field<'_>
    requires { 0 < length line.now }
    ensures { spec_lines.IsField line.now (field_text result) ⊎ spec_lines.IsNoField line.now (field_text result) }
{
    match read_field(line) {
        Ok(field) => field,
        Err(_) => Field {
            name: &line[..0],
            value: line,
        },
    }
}

// Whether the line ends a head as no line may.
fn breaks_off(line: &[u8]) -> bool
    ensures { result ≡ spec_lines.breaks_off line.now }
{
    begins_head(line) || matches!(line, [b'\r', ..])
}

// The fields of a head, whose status line was taken, up to its empty line, if it has one.
fn read_fields<'a>(
    alloc: Global,
    lines: &mut Lines<'a>,
) -> Result<Option<Vec<Field<'a>>>, AllocError>
    ensures ok { IfOk result (λ read. MatchOption read
        (spec.IsUnended (spec_lines.whole_lines lines.old.rest.now))
        (λ fields. spec.Ends lines.old.taken (spec_lines.whole_lines lines.old.rest.now) (map field_text fields.items)
        lines.new.taken (spec_lines.whole_lines lines.new.rest.now))) }
    ensures cut { spec_lines.cut_end lines.new.rest.now ≡ spec_lines.cut_end lines.old.rest.now }
    ensures shorter { length lines.new.rest.now ≤ length lines.old.rest.now }
{
    let mut fields = Vec::new(alloc);
    while let Some(line) = lines.next() {
        if line.is_empty() {
            return Ok(Some(fields));
        }
        if breaks_off(line) {
            return Ok(None);
        }
        fields.push(field_of(line))?;
    }
    Ok(None)
}
