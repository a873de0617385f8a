//! The size of a word.
ghost use Rattle.std.specs.Prelude.{◌≡◌, ◌≤◌, length};
ghost use Rattle.st_lexer.specs.Literals.{word_size};

use s7_base::is_word_byte;

/// How many bytes the word at the front has.
pub fn word_size(bytes: &[u8]) -> usize
    ensures size { result ≡ word_size bytes.now }
    ensures within { result ≤ length bytes.now }
{
    bytes.iter().take_while(|b| is_word_byte(**b)).count()
}
