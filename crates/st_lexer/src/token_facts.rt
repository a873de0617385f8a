//! A law of what the tokens of a text are. It computes nothing: its contract is the law.
ghost use Rattle.st_lexer.specs.TokenFacts.{TokensAreOfTheirSorts};

/// Each token of a text is of its sort: a word has letters, digits and `_`, a direct variable means a place
/// with numbers of 32 bits, and a literal whose type has its number has a value of the type.
pub fn tokens_are_of_their_sorts()
    ensures { TokensAreOfTheirSorts }
{}
