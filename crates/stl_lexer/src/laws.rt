//! Laws of the tokens of a source text. They compute nothing: their contracts are the laws.
ghost use Rattle.stl_lexer.specs.Pieces.{TokensAreCut};

/// The tokens of a text are those of its pieces, cut from its front to its end, and a bad token is where no
/// piece begins.
pub fn tokens_are_cut()
    ensures { TokensAreCut }
{}
