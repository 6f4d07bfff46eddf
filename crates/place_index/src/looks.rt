//! How many questions were put to an index.

ghost use Rattle.std.specs.Prelude.{◌≡◌, ◌<◌, ◌+◌, ℕ};

use std::marker::Model;
use std::sync::ledger::{Blank, Book, Ledger, Share};

/// How many questions were put to an index: one for each domain text, one for each path text, and one for each name.
///
/// It takes no bytes, and counting costs nothing at run time.
#[derive(Drop)]
pub struct Looks<L: Ledger> {
    book: Book<L>,
    share: Share<L>,
}

impl<L: Ledger> Model for Looks<L> {
    ghost Value = { ℕ };

    ghost view = { λ s. s.book.total };

    ghost invariant = { λ s. 0 < s.share.parts };
}

impl<L: Ledger> Looks<L> {
    /// A count of none, in a ledger that the caller picks.
    pub fn new(blank: Blank) -> Looks<L>
        requires name { blank.name ≡ L.name }
        requires parts { blank.parts ≡ L.parts }
        requires some { 0 < L.parts }
        ensures { result ≡ 0 }
    {
        let (book, share) = blank.open::<L>();
        Looks { book, share }
    }

    // One question more.
    pub(crate) fn raise(&mut self)
        ensures { self.new ≡ self.old + 1 }
    {
        self.book.add(&mut self.share, 1);
    }
}
