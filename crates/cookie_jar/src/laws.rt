//! What holds of a jar. Each function changes nothing: its contract is the law.
ghost use Rattle.cookie_jar.specs.Laws as law;

use cookie_text::laws::{bound_read_again, pairs_read_again};
use cookies_txt::laws::what_is_written_is_read;
use user_agent::agent::no_rules_are_the_client;

/// What [`crate::Jar::save`] writes of a jar, [`crate::Jar::load`] reads again as the same rows, in each form: each as
/// the form keeps it, in their order, without those that are expired when it is loaded, and no other; and want of
/// memory alone refuses it. What it asks of the rows [`crate::Jar::store`] tells, and of that store `iter_any`; what of
/// the text `save`.
pub fn saved_rows_are_loaded()
    ensures rows { law.SavedRowsAreLoaded }
    ensures read { law.SavedTextsAreRead }
{
    cookie_store::laws();
    cookie_store::serde::laws();
    pairs_read_again();
    bound_read_again();
    what_is_written_is_read();
}

/// With no rule on, [`crate::Jar::receive`] takes a line that the jar itself doesn't refuse, for a control character or
/// a tab, exactly as a [`cookie_client::Client`] does.
pub fn no_rules_are_a_client()
    ensures { law.WithoutRules }
{
    no_rules_are_the_client();
}
