//! Laws of the words of a text.
ghost use Rattle.cdl_cards.specs.Tokens.{WordsAreTokens};

/// The words of a text's lines, each with its place, are the text's tokens that are words.
pub fn words_are_tokens(text: &[u8])
    ensures { WordsAreTokens text.now }
{}
