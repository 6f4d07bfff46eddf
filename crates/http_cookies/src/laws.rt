//! What holds of cookies in the fields of messages. Each function changes nothing: its contract is the law.
ghost use Rattle.http_cookies.specs.Messages as law;

/// Each line with which a session closes is a field's value: its cookie is escaped, of the path `/` and
/// without a domain.
pub fn session_lines_are_values()
    ensures { law.SessionLinesAreValues }
{}

/// What was put as lines is received as these lines, behind those that were there, and a header that
/// was put is opened as that header. The fields of other names are as they were.
pub fn what_is_put_is_read()
    ensures lines { law.LinesAreReceived }
    ensures header { law.HeaderIsOpened }
{}

/// An exchange through messages is the play's exchange, by the reading on which its session opens: so what the play's
/// laws say of what sites read, they say of exchanges by [`crate::put_header`], [`crate::session_of`],
/// [`crate::put_lines`] and [`crate::receive`].
pub fn exchanges_are_played()
    ensures { law.ExchangesArePlayed }
{}
