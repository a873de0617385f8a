//! The layout of declarations: which rules they break, how long they are, their initial bytes, and where the
//! component that a path names lies.
//!
//! Uses `stl_tree` for the declarations and `stl_rules` for what layouts are. All definitions count in bits.
#![tactic(auto)]

mod bits;
mod constant;
mod contents;
mod extent;
mod initial;
mod laying_out;
mod layout_laws;
mod lengths;
mod names;
mod path;
mod place;
mod rules;
mod too_large;

pub use bits::value_in;
pub use constant::fits;
pub use extent::{
    elements_in, end_behind, end_of_all, even_extent, extent_by, extent_of_width, place_behind,
    product, section_behind, sum, width_of,
};
pub use initial::{elementary, fits_width};
pub use laying_out::{first_break, first_in_sections, first_large, layout, layout_of};
pub use layout_laws::components_stand_at_the_least;
pub use lengths::{MOST_IN_BLOCK, MOST_LOCAL};
pub use names::Names;
pub use path::{component, component_at, elements_before};
pub use place::Placed;
pub use stl_rules::{Component, Layout};
