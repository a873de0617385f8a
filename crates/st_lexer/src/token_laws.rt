//! Laws of the definition of tokens. They compute nothing: their contracts are the laws.
ghost use Rattle.st_lexer.specs.TokenGrammar.{TokensAreCut};

/// The tokens of a text are those of its pieces, cut from its front to its end, and a bad token is the first
/// decimal too great for its place, or else where no piece begins.
pub fn tokens_are_cut()
    ensures { TokensAreCut }
{}
