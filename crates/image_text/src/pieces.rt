//! Cuts a text into lines, and a line into pieces.
ghost use Rattle.std.specs.Prelude.{◌≡◌, ◌<◌, ◌≤◌, ◌==◌, ◌∷◌, not, length, drop};
ghost use Rattle.std.specs.List.{prefix_len, slice_split};
ghost use Rattle.std.specs.Str.Lines.{strip_carriage_return};
ghost use Rattle.image_text.specs.Image.{is_blank};
ghost use Rattle.image_text.specs.inner.Fields.{pieces_left};

/// What is left of a text after its first bytes.
pub fn rest_after(text: &[u8], size: usize) -> &[u8]
    requires { size ≤ length text.now }
    ensures { result.now ≡ drop size text.now }
{
    let (_, rest) = text.split_at(size);
    rest
}

fn is_blank(b: u8) -> bool
    ensures { result ≡ is_blank b }
{
    b == b' ' || b == b'\t'
}

fn line_size(text: &[u8]) -> usize
    ensures size { result ≡ prefix_len (λ b. not (b == 10)) text.now }
    ensures within { result ≤ length text.now }
{
    text.iter().take_while(|b| **b != b'\n').count()
}

fn piece_size(text: &[u8]) -> usize
    ensures size { result ≡ prefix_len (λ b. not (is_blank b)) text.now }
    ensures within { result ≤ length text.now }
{
    text.iter().take_while(|b| !is_blank(**b)).count()
}

/// The first line, and what comes after it: nothing, or a line feed and further lines.
pub fn cut_line(text: &[u8]) -> (&[u8], &[u8])
    ensures cut { slice_split (λ b. b == 10) text.now ≡ result.0.now ∷ pieces_left (λ b. b == 10) result.1.now }
    ensures no_longer { length result.1.now ≤ length text.now }
{
    text.split_at(line_size(text))
}

/// The first piece, and what comes after it: nothing, or a blank and further pieces.
pub fn cut_piece(text: &[u8]) -> (&[u8], &[u8])
    ensures cut { slice_split is_blank text.now ≡ result.0.now ∷ pieces_left is_blank result.1.now }
    ensures no_longer { length result.1.now ≤ length text.now }
{
    text.split_at(piece_size(text))
}

/// The piece after the blank at the front, and what comes after it.
pub fn next_piece(left: &[u8]) -> (&[u8], &[u8])
    requires { 0 < length left.now }
    ensures cut { pieces_left is_blank left.now ≡ result.0.now ∷ pieces_left is_blank result.1.now }
    ensures shorter { length result.1.now < length left.now }
{
    cut_piece(rest_after(left, 1))
}

/// The line without the one carriage return at its end, if it has one.
pub fn strip_return(line: &[u8]) -> &[u8]
    ensures { result.now ≡ strip_carriage_return line.now }
{
    match line {
        [front @ .., b'\r'] => front,
        _ => line,
    }
}
