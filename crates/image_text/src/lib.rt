//! Memory as text: the image that a run begins with, and the report of its end.
//!
//! Uses `s7_base`, `digit_texts`, `memory_areas` and `itoa`. `specs/Image.antt` says what each line of an
//! image does, `specs/Report.antt` what a report shows; both calls give exactly that.
#![tactic(auto)]

pub use read::read_image;
pub use refusal::ImageRefusal;
pub use report::image_text;

mod area_line;
mod number;
mod pieces;
mod read;
mod refusal;
mod report;
