//! Laws of answers that a user agent takes. Each function changes nothing: its contract is the law.
ghost use Rattle.user_agent.specs.Agent.{ClientsTakeTheirs, PairsStay};
ghost use Rattle.user_agent.specs.Controls as control;
ghost use Rattle.user_agent.specs.SessionLines as spec;

/// Whatever lines come, the rows are those after the client took the lines that it gets: of those that no rule refused,
/// in their order, what each is handed on as. So what is proved of a client holds behind any rules.
pub fn clients_take_theirs()
    ensures { ClientsTakeTheirs }
{}

/// Whatever rules are on, what the client gets of a line begins with the line's own first piece: its name and its value
/// stay as they came.
pub fn pairs_stay()
    ensures { PairsStay }
{}

/// Where no control character stands in a line, none does in what the client gets of it, whatever rules are on, and
/// none in the name, the value and the path of the cookie that a line reads as.
pub fn no_control_comes()
    ensures stay { control.FreeLinesStay }
    ensures read { control.FreeLinesRead }
{}

/// Where the rule `control` is on, no control character stands in the header of a request, whatever starts it and
/// whatever rows there are: loaded, imported or there before the rule. So it is one line.
pub fn headers_have_no_control()
    ensures behind { control.HeadersAreFree }
    ensures started { control.StartedHeadersAreFree }
{}

/// The line of a session's cookie from an https URL is refused by no rule, whatever rows there are, and the client gets
/// it as it stands: where its name and value, escaped as the line has them, have at most 4,096 bytes together, and
/// it lives 400 days at most from then on, each as far as its rule is on.
///
/// So an answer of a session, each cookie of its delta within these bounds, is taken exactly as by the client.
pub fn sessions_pass()
    ensures lines { spec.SentLinesPass }
    ensures answers { spec.SessionsAreTaken }
{}
