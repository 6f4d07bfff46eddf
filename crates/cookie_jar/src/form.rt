//! The forms of a jar's text.
/// The form of a jar's text.
#[derive(Clone, Copy, Debug, PartialEq, Eq)]
pub enum Form {
    /// A list of RON, which keeps all of a row.
    Ron,
    /// A list of JSON, which keeps all of a row.
    Json,
    /// Netscape's `cookies.txt`, whose lines hold less of a row, and not every row.
    Txt,
}

impl Form {
    /// The form that a file's name ends with: `.ron`, `.json` or `.txt`.
    pub fn of(name: &str) -> Option<Form> {
        if name.ends_with(".ron") {
            Some(Form::Ron)
        } else if name.ends_with(".json") {
            Some(Form::Json)
        } else if name.ends_with(".txt") {
            Some(Form::Txt)
        } else {
            None
        }
    }
}
