//! What holds of a written text. The function changes nothing: its contract is the law.
ghost use Rattle.cookies_txt.specs.Laws as law;

/// What was written says the rows that lines can hold, and is read as these, each with the parts that the format has
/// and no other, in their order.
pub fn what_is_written_is_read()
    ensures says { law.WrittenRowsAreSaid }
    ensures rows { law.WrittenRowsComeBack }
{}
