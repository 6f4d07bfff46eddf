//! What holds of registrable domains. The function changes nothing: its contract is the law.
ghost use Rattle.publicsuffix.specs.Registrable as law;

/// A text has one registrable domain at most, and a public suffix has none.
pub fn one_registrable_domain()
    ensures one { law.OneIsRegistrable }
    ensures none { law.NoSuffixHasOne }
{}
