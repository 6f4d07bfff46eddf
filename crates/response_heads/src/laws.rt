//! What holds of every text. The function changes nothing: its contract is the law.
ghost use Rattle.response_heads.specs.Laws as law;

/// A text gives one list of heads: the definition leaves no choice.
pub fn a_text_gives_one_list_of_heads()
    ensures { law.OneListOfHeads }
{}
