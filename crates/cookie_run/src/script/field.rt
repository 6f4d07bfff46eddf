//! The lines of a script, and the fields of a line.
ghost use Rattle.std.specs.Prelude.{◌≡◌, ◌⊎◌, ◌∷◌, ◌<◌, true, false, length, map, IfOk, OnOk, IfErr};
ghost use Rattle.std.specs.List.{list_all, slice_split};
ghost use Rattle.std.specs.Str.{is_utf8};
ghost use Rattle.std.specs.Str.Lines.{lines};
ghost use Rattle.cookie_run.specs.ScriptLine.{fields_of, is_tab};

use crate::script::cause::Cause;
use percent_encoding::percent_decode;
use std::alloc::{AllocError, Global};
use text_lines::{line_end, without_return};

/// The first line of a text that isn't empty, and what follows it.
///
/// A line ends at a line feed, and a carriage return before that is dropped; the last line may lack
/// its end.
pub fn cut_line(text: &[u8]) -> (&[u8], &[u8])
    requires { 0 < length text.now }
    ensures line { lines text.now ≡ result.0.now ∷ lines result.1.now }
    ensures shorter { length result.1.now < length text.now }
{
    match line_end(text) {
        Some(i) => (without_return(&text[..i]), &text[i + 1..]),
        None => (text, &text[text.len()..]),
    }
}

/// The fields of a line, which stand between tabs, each percent-decoded.
pub fn fields_of(alloc: Global, line: &[u8]) -> Result<Vec<Vec<u8>>, AllocError>
    ensures { IfOk result (λ fields. map (λ field. field.items) fields.items ≡ fields_of line.now) }
{
    let parts = parts_of(alloc, line)?;
    let mut fields = Vec::new(alloc);
    for part in &parts {
        let mut field = Vec::new(alloc);
        percent_decode(part).append_to(&mut field)?;
        fields.push(field)?;
    }
    Ok(fields)
}

// The parts of a line between its tabs.
fn parts_of(alloc: Global, line: &[u8]) -> Result<Vec<&[u8]>, AllocError>
    ensures { IfOk result (λ parts. map (λ part. part.now) parts.items ≡ slice_split is_tab line.now) }
{
    line.split(|b| *b == b'\t').collect(alloc)
}

/// The fields as texts, or `Text` where one of them isn't UTF-8.
pub fn texts_of(alloc: Global, fields: &[Vec<u8>]) -> Result<Vec<&str>, Cause>
    ensures texts { IfOk result (λ texts.
        map (λ text. text.now) texts.items ≡ map (λ field. field.items) fields.now) }
    ensures utf8 { OnOk result (list_all is_utf8 (map (λ field. field.items) fields.now) ≡ true) }
    ensures err { IfErr result (λ cause.
        ((cause ≡ Cause.Text) × (list_all is_utf8 (map (λ field. field.items) fields.now) ≡ false))
        ⊎ (cause ≡ Cause.Memory)) }
{
    let mut texts = Vec::new(alloc);
    for field in fields {
        match text_of(field) {
            Ok(text) => texts.push(text)?,
            Err(cause) => return Err(cause),
        }
    }
    Ok(texts)
}

/// The field as a text, or `Text` where it isn't UTF-8.
pub fn text_of(field: &[u8]) -> Result<&str, Cause>
    ensures text { IfOk result (λ text. text.now ≡ field.now) }
    ensures utf8 { OnOk result (is_utf8 field.now ≡ true) }
    ensures err { IfErr result (λ cause. (cause ≡ Cause.Text) × (is_utf8 field.now ≡ false)) }
{
    match str::from_utf8(field) {
        Ok(text) => Ok(text),
        Err(_) => Err(Cause::Text),
    }
}
