//! Laws of what is written.
ghost use Rattle.saved_text.specs.DateReading.{AreOfOneMoment};
ghost use Rattle.saved_text.specs.Json.{ReadsBack, ListsReadBack};
ghost use Rattle.saved_text.specs.PrintedDates.{PrintedDatesAreRead, FractionsAreDropped};
ghost use Rattle.saved_text.specs.RowWords.{WrittenIsOfGrammar};
ghost use Rattle.saved_text.specs.Written.{StringsAreOfGrammar};

/// What is written of bytes in RON is a string of the grammar that says these bytes.
pub fn strings_are_of_grammar()
    ensures { StringsAreOfGrammar }
{}

/// What is written of rows in RON is of the grammar, and shows these very rows.
pub fn written_is_of_grammar()
    ensures { WrittenIsOfGrammar }
{}

/// What is written of a row in JSON is read as that row's value.
pub fn reads_back()
    ensures { ReadsBack }
{}

/// What is written of rows in JSON is read as these rows' value.
pub fn lists_read_back()
    ensures { ListsReadBack }
{}

/// A text is a date of one moment at most.
pub fn dates_are_of_one_moment()
    ensures { AreOfOneMoment }
{}

/// What is printed of a moment of the years 0 to 9999 is a date of that moment without its fraction.
pub fn printed_dates_are_read()
    ensures read { PrintedDatesAreRead }
    ensures dropped { FractionsAreDropped }
{}
