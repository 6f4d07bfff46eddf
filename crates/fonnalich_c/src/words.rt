//! Refusals in words.
ghost use Rattle.std.specs.Prelude.{◌≡◌};
ghost use Rattle.fonnalich_c.specs.Words as spec;

/// What the number of a refusal says; nothing of another.
pub(crate) fn text_of(number: i64) -> &'static str
    ensures { result.now ≡ spec.text_of number }
{
    if number < 0 {
        words_of(number.unsigned_abs())
    } else {
        ""
    }
}

// What the number below 0 of this size says.
fn words_of(size: u64) -> &'static str
    ensures { result.now ≡ spec.words_of size }
{
    match size {
        1 => "memory was refused",
        2 => "the word is none of the header file",
        3 => "there is no client yet",
        4 => "the text is no public suffix list",
        5 => "the second is outside the years -9999 to 9999",
        6 => "the text is no URL",
        7 => "the text is no saved client",
        8 => "a cookie that is to be saved ends in a year below 0",
        9 => "the saved text wasn't read to its end",
        10 => "the key has under 64 bytes",
        11 => "a line is no command, or sets a cookie with a Domain or a Path of its own",
        12 => "the name is empty",
        13 => "the expiry is of a year below 100",
        14 => "the cookie is too long to be sealed",
        15 => "there are too few nonces",
        16 => "the host has no byte or an empty label, or the URL has none",
        17 => "a text isn't UTF-8",
        18 => "the text has no = before its first semicolon",
        19 => "the number is none of SameSite",
        20 => "the number is none of rules",
        21 => "the header has a control character",
        22 => "this processor lacks SSE 4.2",
        23 => "the library's handle is larger than the header file's",
        24 => "the suffix list has no rule",
        25 => "the handle keeps no list",
        26 => "there are over 16 earlier keys",
        27 => "the keys haven't 64 bytes each, or aren't one more than the ends",
        28 => "the end of a key is outside the years -9999 to 9999",
        40 => "the line isn't UTF-8",
        41 => "the line has neither six nor seven fields",
        42 => "the line has no domain",
        43 => "a flag of the line is neither TRUE nor FALSE",
        44 => "the path has no / in front",
        45 => "the expiry is no number",
        46 => "the line's name is empty",
        47 => "the domain has no IDNA form",
        48 => "a control character stands in the cookie",
        49 => "no Set-Cookie line gives such a name or value",
        50 => "the cookie is against the prefix __Host-",
        100.. => "memory was refused at a line",
        _ => "",
    }
}
