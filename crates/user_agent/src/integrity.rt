//! What holds of Secure rows, whatever comes from a URL that isn't secure.
ghost use Rattle.user_agent.specs.Integrity.{ProtectedRowsStand};
ghost use Rattle.user_agent.specs.SecureRuns.{SecureNamesAreReadSecurely, SecureNamesAreSetSecurely};

/// Where the rules `secure_from_http` and `secure_overlay` are on, whatever lines come from a URL that isn't secure:
/// each Secure row that isn't expired stands as before in the header of each request that is given it.
///
/// Before it and beside it stand the same rows of its name, so the first pair of that name is the same. A row of its
/// name that was added or changed stands behind it, with a shorter path; where the row's path is `/` there is none.
pub fn protected_rows_stand()
    ensures { ProtectedRowsStand }
{}

/// Where the rules `secure_from_http` and `secure_wins` are on, whatever answers came since there was no row, with
/// restarts between: a pair of a request's header is of a row whose value an answer from a secure URL set under its
/// domain, path and name, where the request is given a Secure row that has its name, both percent-decoded. That URL's
/// host is one that the row's domain covers.
pub fn secure_names_are_set_securely()
    ensures { SecureNamesAreSetSecurely }
{}

/// So a session on that header reads under such a name what an answer from a secure URL set: name and value of each
/// cookie that it reads are those of such a row, which the request is given, percent-decoded.
pub fn secure_names_are_read_securely()
    ensures { SecureNamesAreReadSecurely }
{}
