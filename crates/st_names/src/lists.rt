//! Appending to lists.
ghost use Rattle.std.specs.Prelude.{◌≡◌, ◌++◌, OnOk};
ghost use Rattle.st_names.specs.Lists.{as_list};

use s7_base::{Break, List, NoMemory};

/// Appends an item, if there is one.
pub fn keep<T: Drop>(list: &mut List<T>, found: Option<T>) -> Result<(), NoMemory>
    ensures { OnOk result (list.new ≡ list.old ++ as_list found) }
{
    match found {
        Some(item) => list.push(item),
        None => Ok(()),
    }
}

/// Appends broken rules to others.
pub fn put_breaks(breaks: &mut List<Break>, more: &[Break]) -> Result<(), NoMemory>
    ensures { OnOk result (breaks.new ≡ breaks.old ++ more.now) }
{
    for other in more {
        breaks.push(*other)?;
    }
    Ok(())
}
