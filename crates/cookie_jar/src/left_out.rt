//! What is told of rows that are left out of a jar or of a text.
ghost use Rattle.cookie_jar.specs.Terminal.{ArePlain};

use crate::form::Form;
use crate::importing::{cause_words, refusal_of, unfit_words};
use crate::listing::push_key;
use crate::terminal::Shown;
use cookie_store::Cookie;
use cookies_txt::row_fault;
use std::alloc::{AllocError, Global};

/// A line of each cookie, which isn't taken into a jar that is saved in this form.
///
/// # Errors
///
/// `AllocError` where there is no memory for the text.
pub(crate) fn refused_lines(
    alloc: Global,
    form: Form,
    cookies: Vec<&Cookie<'static>>,
) -> Result<Shown, AllocError> {
    let mut text = Shown::new(alloc);
    for cookie in cookies {
        let why = cause_words(refusal_of(form, cookie));
        push_left_out(&mut text, "refused: ", why, cookie)?;
    }
    Ok(text)
}

/// A line of each cookie that a line of `cookies.txt` can't hold.
///
/// # Errors
///
/// `AllocError` where there is no memory for the text.
pub(crate) fn passed_over_lines(
    alloc: Global,
    cookies: Vec<&Cookie<'static>>,
) -> Result<Shown, AllocError> {
    let mut text = Shown::new(alloc);
    for cookie in cookies {
        if let Some(fault) = row_fault(cookie) {
            push_left_out(&mut text, "passed over: ", unfit_words(fault), cookie)?;
        }
    }
    Ok(text)
}

// A line of the cookie behind a mark: why it is left out, its domain, its path and its name.
fn push_left_out(
    text: &mut Shown,
    mark: &'static str,
    why: &'static str,
    cookie: &Cookie<'static>,
) -> Result<(), AllocError>
    requires mark { ArePlain mark.now }
    requires why { ArePlain why.now }
{
    text.words(mark)?;
    text.words(why)?;
    text.words("\t")?;
    push_key(text, cookie)?;
    text.words("\n")
}
