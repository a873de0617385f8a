//! Laws of what a canonical text writes. They compute nothing: their contracts are the laws.
ghost use Rattle.st_lexer.specs.SpellingLaws.{LiteralsAreTokens, PlacesAreTokens, WordsAreTokens};

/// A letter or `_` and more bytes of a word are one token, whatever comes after them that does not continue
/// the word.
pub fn words_are_tokens()
    ensures { WordsAreTokens }
{}

/// The text of a number of a type is one token and has its type and its value, and so have a decimal and a
/// byte without a type.
pub fn literals_are_tokens()
    ensures { LiteralsAreTokens }
{}

/// The text of a place is one token, and its direct variable means that place.
pub fn places_are_tokens()
    ensures { PlacesAreTokens }
{}
