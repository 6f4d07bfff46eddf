//! What holds of every text. The function changes nothing: its contract is the law.
ghost use Rattle.plain_url.specs.Laws as law;

/// RFC 3986 reads in a URL's own text the URL's scheme, host, port, path, query and fragment.
pub fn own_texts_are_read_alike()
    ensures { law.OwnTextsAreReadAlike }
{}
