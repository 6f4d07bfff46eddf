//! The fields that carry cookies in a map of HTTP fields: reading and putting them.
ghost use Rattle.std.specs.Prelude.{◌≡◌, ◌⊎◌, map, string_bytes, IfOk, OnOk, OnErr, IfErr};
ghost use Rattle.http_header.specs.FieldValue.{plain_value};
ghost use Rattle.http_cookies.specs.Fields as spec;

use crate::error::PutError;
use http::header::{COOKIE, SET_COOKIE};
use http::{HeaderMap, HeaderValue};
use std::alloc::{AllocError, Global};

/// The `cookie` fields in their order, joined by `; `.
pub(crate) fn header_in(
    alloc: Global,
    fields: &HeaderMap<HeaderValue>,
) -> Result<Vec<u8>, AllocError>
    ensures { IfOk result (λ header. header.items ≡ spec.header_in fields.now) }
{
    let mut values = fields.get_all(COOKIE).iter();
    let Some(first) = values.next() else {
        return Ok(Vec::new(alloc));
    };
    let mut header = Vec::new(alloc);
    header.extend_from_slice(first.as_bytes())?;
    for value in values {
        header.extend_from_slice(b"; ")?;
        header.extend_from_slice(value.as_bytes())?;
    }
    Ok(header)
}

/// The `set-cookie` fields in their order.
pub(crate) fn lines_in(
    alloc: Global,
    fields: &HeaderMap<HeaderValue>,
) -> Result<Vec<&[u8]>, AllocError>
    ensures { IfOk result (λ lines. map (λ line. line.now) lines.items ≡ spec.lines_in fields.now) }
{
    let mut lines = Vec::new(alloc);
    for value in fields.get_all(SET_COOKIE).iter() {
        lines.push(value.as_bytes())?;
    }
    Ok(lines)
}

/// Puts the header in place of all `cookie` fields, or takes these out where it is empty.
pub(crate) fn put_header_text(
    fields: &mut HeaderMap<HeaderValue>,
    header: String,
) -> Result<(), PutError>
    ensures ok { OnOk result (spec.TakesHeader fields.old (string_bytes header)
        × (fields.new ≡ spec.with_header fields.old (string_bytes header))) }
    ensures err { IfErr result (λ e. (e ≡ PutError.OutOfMemory)
        ⊎ spec.IsHeaderRefusal fields.old (string_bytes header) e) }
    ensures same { OnErr result (fields.new ≡ fields.old) }
{
    if header.is_empty() {
        fields.remove(COOKIE);
        return Ok(());
    }
    fields.insert(COOKIE, HeaderValue::from_string(header)?)?;
    Ok(())
}

/// Appends each line as a `set-cookie` field.
pub(crate) fn put_line_texts(
    fields: &mut HeaderMap<HeaderValue>,
    lines: Vec<String>,
) -> Result<(), PutError>
    ensures ok { OnOk result (spec.TakesLines fields.old (map string_bytes lines.items)
        × (fields.new ≡ spec.with_lines fields.old (map string_bytes lines.items))) }
    ensures err { IfErr result (λ e. (e ≡ PutError.OutOfMemory)
        ⊎ spec.AreLinesRefusal fields.old (map string_bytes lines.items) e) }
    ensures same { OnErr result (fields.new ≡ fields.old) }
{
    if lines.is_empty() {
        return Ok(());
    }
    let values = values_of(lines)?;
    put_values(fields, values)
}

// Each line as a field's value.
fn values_of(lines: Vec<String>) -> Result<Vec<HeaderValue>, PutError>
    ensures ok { IfOk result (λ values. (values.items ≡ map plain_value (map string_bytes lines.items))
        × spec.AreFieldValues (map string_bytes lines.items)) }
    ensures err { IfErr result (λ e. (e ≡ PutError.OutOfMemory)
        ⊎ ((e ≡ PutError.Value) × (¬ (spec.AreFieldValues (map string_bytes lines.items))))) }
{
    let mut values = Vec::new(*lines.allocator());
    for line in lines {
        values.push(HeaderValue::from_string(line)?)?;
    }
    Ok(values)
}

// Appends each value as a `set-cookie` field. A copy takes them, so that a refusal leaves the map as it was.
fn put_values(fields: &mut HeaderMap<HeaderValue>, values: Vec<HeaderValue>) -> Result<(), PutError>
    ensures ok { OnOk result ((fields.new ≡ spec.with_values fields.old values.items)
        × (¬ (spec.RefusesValues fields.old values.items))) }
    ensures err { IfErr result (λ e. (e ≡ PutError.OutOfMemory)
        ⊎ ((e ≡ PutError.Full) × spec.RefusesValues fields.old values.items)) }
    ensures same { OnErr result (fields.new ≡ fields.old) }
{
    let mut longer = copy_of(fields)?;
    append_all(&mut longer, values)?;
    *fields = longer;
    Ok(())
}

// A copy of the map.
fn copy_of(fields: &HeaderMap<HeaderValue>) -> Result<HeaderMap<HeaderValue>, AllocError>
    ensures { IfOk result (λ copy. copy ≡ fields.now) }
{
    fields.clone()
}

// Appends the values as `set-cookie` fields, as many as there is room for.
fn append_all(fields: &mut HeaderMap<HeaderValue>, values: Vec<HeaderValue>) -> Result<(), PutError>
    ensures ok { OnOk result ((fields.new ≡ spec.with_values fields.old values.items)
        × (¬ (spec.RefusesValues fields.old values.items))) }
    ensures err { IfErr result (λ e. (e ≡ PutError.OutOfMemory)
        ⊎ ((e ≡ PutError.Full) × spec.RefusesValues fields.old values.items)) }
{
    for value in values {
        fields.append(SET_COOKIE, value)?;
    }
    Ok(())
}
