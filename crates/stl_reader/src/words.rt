//! The words with which lines begin that are skipped.
ghost use Rattle.std.specs.Prelude.{◌≡◌};
ghost use Rattle.stl_grammar.specs.Headings.{attributes, titles};
ghost use Rattle.stl_statement_grammar.specs.Words.{is_word_among};

use s7_base::Token;
use stl_constants::is_word_kind;
use stl_declarations::is_listed;

/// The words of a line that is skipped, where a colon follows them.
const TITLES: [&str; 4] = ["AUTHOR", "FAMILY", "NAME", "VERSION"];

/// The words of a line that is skipped, where they are alone.
const ATTRIBUTES: [&str; 3] = ["KNOW_HOW_PROTECT", "CODE_VERSION1", "NON_RETAIN"];

/// Whether the token begins a line that is skipped, before a colon.
pub fn is_title(token: &Token) -> bool
    ensures { result ≡ is_word_among titles token.now }
{
    is_word_kind(token) && is_listed(token.text.as_slice(), &TITLES)
}

/// Whether the token begins a line that is skipped, alone.
pub fn is_attribute(token: &Token) -> bool
    ensures { result ≡ is_word_among attributes token.now }
{
    is_word_kind(token) && is_listed(token.text.as_slice(), &ATTRIBUTES)
}
