//! Why an image is refused.
ghost use Rattle.std.specs.Prelude.{◌≡◌};
ghost use Rattle.image_text.specs.declared.refusal.ImageRefusal.TheVariants as refusal;

use s7_base::{Line, NoMemory};

/// Why a text gave no memory: its first faulty line, or memory ran out. Of two faults of one line the one
/// that is listed first here counts.
#[derive(Clone, Copy, Debug, PartialEq, Eq)]
pub enum ImageRefusal {
    /// The line does not have the form of an image's line.
    BadLine(Line),

    /// A field is not exactly two hexadecimal digits.
    BadByte(Line),

    /// The data block does not exist, or a byte lies past the area.
    OutsideArea(Line),

    /// Memory ran out.
    NoMemory,
}

impl From<NoMemory> for ImageRefusal {
    ghost from_gives = { λ _ made. made ≡ refusal.NoMemory };

    fn from(_refused: NoMemory) -> ImageRefusal {
        ImageRefusal::NoMemory
    }
}
