//! The words of a call by a handle.
ghost use Rattle.std.specs.Prelude.{◌≡◌};
ghost use Rattle.fonnalich_c.specs.Numbers as spec;

use crate::started::Start;
use cookies_txt::Reader;

/// Hands out the answer that had no room.
pub const ANSWER: u32 = 0;

/// What a word asks a client for.
#[derive(Clone, Copy, Debug, PartialEq, Eq)]
pub enum Task {
    /// To take the lines of an answer to a request that is started so.
    Receive(Start),
    /// The header of such a request.
    Header(Start),
    /// Its saved text.
    Save,
    /// To be saved and loaded again.
    Restart,
    /// The saved text of all its rows.
    SaveAll,
    /// To take all rows of a saved text in the place of its own.
    Reload,
    /// How many of its rows aren't expired.
    Count,
    /// The items of these.
    List,
    /// To let go of all its rows.
    Clear,
    /// To take the rows of a `cookies.txt`.
    Import,
    /// Its rows as a `cookies.txt` for a reader, with those that end with the session or without.
    Export(Reader, bool),
}

/// What a word asks of the list that a handle keeps.
#[derive(Clone, Copy, Debug, PartialEq, Eq)]
pub enum ByList {
    /// A client without a row.
    Begin,
    /// A client of a saved text.
    Load,
    /// The public suffix of a host.
    Suffix,
    /// The shard of a host.
    Shard,
    /// The shard of the host of a URL.
    ShardOfUrl,
}

/// What a word does.
#[derive(Clone, Copy, Debug, PartialEq, Eq)]
pub enum Word {
    /// A client without a row.
    List,
    /// A client of a saved text.
    Load,
    /// The rules of lines that come later.
    Rules,
    /// A task of the client.
    Ask(Task),
    /// Keeps the list of a text.
    Keep,
    /// What is asked of the list that is kept.
    By(ByList),
}

impl Word {
    /// What the word of a number does, but for [`ANSWER`].
    pub fn of(number: u32) -> Option<Word>
        ensures { result ≡ spec.word_of number }
    {
        match number {
            1 => Some(Word::List),
            2 => Some(Word::Load),
            3 => Some(Word::Ask(Task::Receive(Start::User))),
            4 => Some(Word::Ask(Task::Header(Start::User))),
            5 => Some(Word::Ask(Task::Save)),
            6 => Some(Word::Ask(Task::Restart)),
            7 => Some(Word::Rules),
            8 => Some(Word::Ask(Task::SaveAll)),
            9 => Some(Word::Ask(Task::Reload)),
            10 => Some(Word::Ask(Task::Count)),
            11 => Some(Word::Ask(Task::List)),
            12 => Some(Word::Ask(Task::Clear)),
            13 => Some(Word::Ask(Task::Header(Start::Page))),
            14 => Some(Word::Ask(Task::Header(Start::Navigation))),
            15 => Some(Word::Keep),
            16 => Some(Word::By(ByList::Begin)),
            17 => Some(Word::By(ByList::Load)),
            18 => Some(Word::By(ByList::Suffix)),
            19 => Some(Word::By(ByList::Shard)),
            20 => Some(Word::By(ByList::ShardOfUrl)),
            21 => Some(Word::Ask(Task::Import)),
            22 => Some(Word::Ask(Task::Export(Reader::Curl, true))),
            23 => Some(Word::Ask(Task::Export(Reader::Wget, true))),
            24 => Some(Word::Ask(Task::Export(Reader::Python, true))),
            25 => Some(Word::Ask(Task::Export(Reader::Curl, false))),
            26 => Some(Word::Ask(Task::Export(Reader::Wget, false))),
            27 => Some(Word::Ask(Task::Export(Reader::Python, false))),
            _ => None,
        }
    }

    /// The word that takes the lines of an answer to a request that is started so.
    pub fn receive(start: Start) -> Word
        ensures { result ≡ spec.receive_word start }
    {
        Word::Ask(Task::Receive(start))
    }
}
