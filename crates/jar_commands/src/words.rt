//! The words behind the program's name: options with their values, and words that are none.
//!
//! ```text
//! // jar.txt header https://shop.com/ --format=json
//! let words = read(alloc, &given)?;
//! assert!(rt; words.value(Name::Format) == Some("json") && words.jar() == "jar.txt");
//! assert!(rt; words.command() == "header" && words.word(2) == Some("https://shop.com/"));
//! ```

pub use crate::names::Name;
use crate::names::words_of;
pub use crate::refusal::{Kind, Refusal};
use cookie_jar::Form;
use cookies_txt::Reader;
use std::alloc::Global;

// An option, the word that names it, and its value; a flag's is empty.
#[derive(Clone, Copy, Debug, PartialEq, Eq)]
struct Given<'a> {
    option: Name,
    word: &'a str,
    value: &'a str,
}

/// What stands in words that are right.
#[derive(Debug, Drop)]
pub struct Words<'a> {
    options: Vec<Given<'a>>,
    // JAR, the command, and its words.
    words: Vec<&'a str>,
}

/// What stands in the words.
///
/// # Errors
///
/// `Help` where they ask for help, `Version` where they ask for the version, `Words` where they are wrong; `Memory`.
pub fn read<'a>(alloc: Global, words: &'a [String]) -> Result<Words<'a>, Refusal<'a>> {
    let mut read = Words {
        options: Vec::new(alloc),
        words: Vec::new(alloc),
    };
    let mut is_over = false;
    let mut unvalued = None;
    for word in words {
        let word = word.as_str();
        match unvalued {
            Some((option, name)) if is_value(word) => {
                read.give(option, name, word)?;
                unvalued = None;
            }
            Some((_, name)) => return Err(Refusal::Words(Kind::NoValue, name)),
            None if is_over || !is_option(word) => read.put(word)?,
            None if word == "--" => is_over = true,
            None => unvalued = read.begin(word)?,
        }
    }
    if let Some((_, name)) = unvalued {
        return Err(Refusal::Words(Kind::NoValue, name));
    }
    read.check_options()?;
    read.check_words()?;
    Ok(read)
}

impl<'a> Words<'a> {
    /// The value of the option, where it is given; a flag's is empty.
    pub fn value(&self, option: Name) -> Option<&'a str> {
        for given in &self.options {
            if given.option == option {
                return Some(given.value);
            }
        }
        None
    }

    /// Whether the option is given.
    pub fn has(&self, option: Name) -> bool {
        self.value(option).is_some()
    }

    /// The word of this place, where JAR has the place 0 and the command 1.
    pub fn word(&self, place: usize) -> Option<&'a str> {
        self.words.get(place).copied()
    }

    /// JAR.
    pub fn jar(&self) -> &'a str {
        self.word(0).unwrap_or("")
    }

    /// The name of the command.
    pub fn command(&self) -> &'a str {
        self.word(1).unwrap_or("")
    }

    // Takes an option. It is told with its word where its value is the next word.
    fn begin(&mut self, word: &'a str) -> Result<Option<(Name, &'a str)>, Refusal<'a>> {
        let (name, value) = match word.split_once('=') {
            Some((name, value)) => (name, Some(value)),
            None => (word, None),
        };
        match (Name::of(name), value) {
            (None, _) => return Err(Refusal::Words(Kind::UnknownWord, word)),
            (Some((_, false)), Some(_)) => {
                return Err(Refusal::Words(Kind::UnneededValue, word));
            }
            (Some((option, true)), None) => return Ok(Some((option, word))),
            (Some((option, true)), Some(value)) => self.give(option, word, value)?,
            (Some((option, false)), None) => self.give(option, word, "")?,
        }
        Ok(None)
    }

    // Takes an option with its value.
    fn give(&mut self, option: Name, word: &'a str, value: &'a str) -> Result<(), Refusal<'a>> {
        match option {
            Name::Help => return Err(Refusal::Help),
            Name::Version => return Err(Refusal::Version),
            _ if self.has(option) => return Err(Refusal::Words(Kind::Repeated, word)),
            _ => {}
        }
        let given = Given {
            option,
            word,
            value,
        };
        match self.options.push(given) {
            Ok(()) => Ok(()),
            Err(_) => Err(Refusal::Memory),
        }
    }

    // Takes a word that is no option: JAR, a command, or one of the command's.
    fn put(&mut self, word: &'a str) -> Result<(), Refusal<'a>> {
        match (self.word(0), self.word(1)) {
            (None, _) => {}
            (Some(jar), None) => {
                if words_of(word).is_none() {
                    return Err(no_command(jar, word));
                }
            }
            (Some(_), Some(command)) => {
                let (names, _) = words_of(command).unwrap_or((&[], 0));
                if names.len() + 2 <= self.words.len() {
                    return Err(Refusal::Words(Kind::UnknownWord, word));
                }
            }
        }
        match self.words.push(word) {
            Ok(()) => Ok(()),
            Err(_) => Err(Refusal::Memory),
        }
    }

    // Refuses the first option that the command hasn't, or whose value is none of its names.
    fn check_options(&self) -> Result<(), Refusal<'a>> {
        for given in &self.options {
            if let Some(command) = self.word(1) {
                if !given.option.is_of(command) {
                    return Err(Refusal::Words(Kind::UnknownWord, given.word));
                }
            }
            match given.option {
                Name::Format | Name::FileFormat if form_named(given.value).is_none() => {
                    return Err(Refusal::Words(Kind::Format, given.value));
                }
                Name::For if reader_named(given.value).is_none() => {
                    return Err(Refusal::Words(Kind::Reader, given.value));
                }
                _ => {}
            }
        }
        Ok(())
    }

    // Refuses words of which one is missing, or that don't go together.
    fn check_words(&self) -> Result<(), Refusal<'a>> {
        let Some(jar) = self.word(0) else {
            return Err(Refusal::Words(Kind::MissingWord, "JAR"));
        };
        if jar.is_empty() {
            return Err(Refusal::Words(Kind::EmptyJar, jar));
        }
        let Some(command) = self.word(1) else {
            return Err(missing_behind(jar));
        };
        let (names, least) = words_of(command).unwrap_or((&[], 0));
        for (place, name) in names.iter().enumerate() {
            if place < least && self.word(place + 2).is_none() {
                return Err(Refusal::Words(Kind::MissingWord, name));
            }
        }
        if self.has(Name::Navigate) && !self.has(Name::From) {
            return Err(Refusal::Words(Kind::NoFrom, "--navigate"));
        }
        match self.word(2) {
            Some(url) if self.has(Name::Domain) => Err(Refusal::Words(Kind::Both, url)),
            _ => Ok(()),
        }
    }
}

// What a word is that stands behind JAR and is no command.
fn no_command<'a>(jar: &'a str, word: &'a str) -> Refusal<'a> {
    if words_of(jar).is_some() {
        Refusal::Words(Kind::MissingJar, jar)
    } else if jar == "url" || word == "url" {
        Refusal::Words(Kind::Alone, word)
    } else {
        Refusal::Words(Kind::UnknownWord, word)
    }
}

// What is missing where no command stands behind JAR.
fn missing_behind(jar: &str) -> Refusal<'_> {
    if words_of(jar).is_some() {
        Refusal::Words(Kind::MissingJar, jar)
    } else if jar == "url" {
        Refusal::Words(Kind::MissingWord, "TEXT")
    } else {
        Refusal::Words(Kind::MissingCommand, "COMMAND")
    }
}

// Whether the word begins with a dash, and is more than that.
fn is_option(word: &str) -> bool {
    matches!(word.as_bytes(), [b'-', _, ..])
}

// Whether the word may be an option's value: it is no option, or a number below 0.
fn is_value(word: &str) -> bool {
    match word.as_bytes() {
        [b'-', next, ..] => next.is_ascii_digit(),
        _ => true,
    }
}

/// The form of this name: `ron`, `json` or `txt`, in small letters.
pub(crate) fn form_named(name: &str) -> Option<Form> {
    if name == "ron" {
        Some(Form::Ron)
    } else if name == "json" {
        Some(Form::Json)
    } else if name == "txt" {
        Some(Form::Txt)
    } else {
        None
    }
}

/// The reader of this name: `curl`, `wget` or `python`, in small letters.
pub(crate) fn reader_named(name: &str) -> Option<Reader> {
    if name == "curl" {
        Some(Reader::Curl)
    } else if name == "wget" {
        Some(Reader::Wget)
    } else if name == "python" {
        Some(Reader::Python)
    } else {
        None
    }
}

/// The text for which a plain URL is asked, where the words behind the program's name are `url TEXT`, which has no jar.
/// A TEXT that begins with a dash is none: it may ask for help.
pub fn url_asked(words: &[String]) -> Option<&str> {
    match words {
        [command, text] if command.as_str() == "url" && !text.as_str().starts_with('-') => {
            Some(text.as_str())
        }
        _ => None,
    }
}
