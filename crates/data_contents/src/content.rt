//! The content of a data block.
ghost use Rattle.std.specs.Prelude.{◌≡◌, IfOk};
ghost use Rattle.data_contents.specs.Contents.{Holds};
ghost use Rattle.data_contents.specs.inner.Inside.{AreKept};
ghost use Rattle.stl_rules.specs.DataBlocks.{or_two};
ghost use Rattle.stl_rules.specs.Layouts.{initial_of};

use crate::values::put_values;
use component_index::Components;
use s7_base::{Break, List, NoMemory, Rejection, first_of_all};
use std::alloc::Global;
use stl_tree::RawInitial;
use symbol_layout::{MOST_IN_BLOCK, layout_of};

/// The result of the declarations and initial values of a data block.
#[derive(Debug, Drop)]
pub enum Content {
    /// The bytes of the data block: no rule is broken.
    Bytes(List<u8>),

    /// The first broken rule where the declarations break one; no path into them is judged then.
    BadDeclarations(Break),

    /// The first broken rule where the initial values alone break some.
    BadValues(Break),
}

/// The bytes, or two zeros where there are fewer than two: a data block has two bytes at least.
fn or_two(bytes: Vec<u8>) -> Result<List<u8>, NoMemory>
    ensures { IfOk result (λ all. all ≡ or_two bytes.items) }
{
    let mut all = bytes;
    if all.is_empty() {
        all.extend_from_slice(&[0, 0])?;
    }
    Ok(List::from_vec(all))
}

/// The content of a data block whose declarations keep the rules, from their initial bytes.
fn content_with_values(
    alloc: Global,
    components: &Components<'_>,
    values: &[RawInitial],
    initial: List<u8>,
) -> Result<Content, NoMemory>
    requires kept { AreKept components.now }
    requires initial { initial ≡ initial_of components.now }
    ensures { IfOk result (Holds components.now values.now) }
{
    let mut bytes = initial.into_vec();
    let mut breaks = List::new(alloc);
    put_values(alloc, components, values, bytes.as_mut_slice(), &mut breaks)?;
    match first_of_all(breaks.as_slice()) {
        Some(first) => Ok(Content::BadValues(first)),
        None => Ok(Content::Bytes(or_two(bytes)?)),
    }
}

/// The bytes of a data block by the index of its declarations and its initial values, or the first rule that they break: one of
/// the layout of its declarations, `UnknownName` at the line of an initial value whose path names nothing, or
/// `BadOperand` at one that is no value of its component.
pub fn content_of(
    alloc: Global,
    components: &Components<'_>,
    values: &[RawInitial],
) -> Result<Content, NoMemory>
    ensures { IfOk result (Holds components.now values.now) }
{
    match layout_of(alloc, components.sections(), MOST_IN_BLOCK) {
        Ok(layout) => content_with_values(alloc, components, values, layout.initial),
        Err(Rejection::Refused(line, rule)) => Ok(Content::BadDeclarations(Break { line, rule })),
        Err(Rejection::NoMemory) => Err(NoMemory),
    }
}
