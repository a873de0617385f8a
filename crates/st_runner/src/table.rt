//! Tables of the labels of a CASE.
ghost use Rattle.std.specs.Prelude.{◌≡◌, if◌then◌else◌, IfOk, OnOk, None, Some, ℤ};
ghost use Rattle.std.specs.HashMap.{get};
ghost use Rattle.std.specs.Option.{option_or};
ghost use Rattle.std.specs.Ordering.{int_eq};
ghost use Rattle.st_runner.specs.inner.Choice.{has_label, labels_of, place_from};

use s7_base::NoMemory;
use st_tree::CaseArm;
use std::alloc::Global;
use std::collections::HashMap;
use std::marker::Model;

/// The labels of the arms of a CASE, each with the position of the first arm that has it. Contracts see the
/// labels of each arm.
#[derive(Drop)]
pub struct Table<'t> {
    arms: &'t [CaseArm],
    places: HashMap<i64, usize>,
}

impl<'t> Model for Table<'t> {
    ghost use Rattle.std.specs.Prelude.{◌≡◌, List, ℤ};
    ghost use Rattle.std.specs.Coded.{coded_list, coded_ℤ};
    ghost use Rattle.std.specs.HashMap.{get};
    ghost use Rattle.std.specs.Ordering.{int_eq};
    ghost use Rattle.st_runner.specs.inner.Choice.{labels_of, place_from};

    ghost Value = { List (List ℤ) };

    ghost coded = { coded_list (coded_list coded_ℤ) };

    ghost view = { λ t. labels_of t.arms.now };

    ghost invariant = { λ t. (n : ℤ) → get int_eq t.places n ≡ place_from 0 n (labels_of t.arms.now) };
}

/// Keeps the position of an arm for a label that has none.
fn put_label(places: &mut HashMap<i64, usize>, label: i64, at: usize) -> Result<(), NoMemory>
    ensures { OnOk result ((n : ℤ)
        → get int_eq places.new n ≡ option_or (get int_eq places.old n) (if int_eq label n then Some at else None)) }
{
    if places.contains_key(&label) {
        return Ok(());
    }
    places.insert(label, at)?;
    Ok(())
}

/// Keeps the position of an arm for those of its labels that have none.
fn put_labels(places: &mut HashMap<i64, usize>, labels: &[i64], at: usize) -> Result<(), NoMemory>
    ensures { OnOk result ((n : ℤ) → get int_eq places.new n
        ≡ option_or (get int_eq places.old n) (if has_label labels.now n then Some at else None)) }
{
    let mut rest = labels;
    while let Some((label, behind)) = rest.split_first() {
        put_label(places, *label, at)?;
        rest = behind;
    }
    Ok(())
}

impl<'t> Table<'t> {
    /// The table of some arms.
    pub fn new(alloc: Global, arms: &'t [CaseArm]) -> Result<Table<'t>, NoMemory>
        ensures { IfOk result (λ table. table ≡ labels_of arms.now) }
    {
        let mut places = HashMap::with_capacity(alloc, arms.len())?;
        let mut rest = arms;
        let mut at = 0;
        while let Some((arm, behind)) = rest.split_first() {
            put_labels(&mut places, arm.labels.as_slice(), at)?;
            rest = behind;
            at += 1;
        }
        Ok(Table { arms, places })
    }

    /// The position of the first arm that has a value.
    pub fn find(&self, n: i64) -> Option<usize>
        ensures { result ≡ place_from 0 n self.now }
    {
        self.places.get(&n).copied()
    }
}
