//! The index of the components of declarations.
ghost use Rattle.std.specs.Prelude.{◌≡◌, [], IfOk, option_map};
ghost use Rattle.stl_rules.specs.Interfaces.{is_declared};
ghost use Rattle.stl_rules.specs.Paths.{component_at, component_in};
ghost use Rattle.component_index.specs.inner.Scopes.{component_behind, placed_of_entry};
ghost use Rattle.symbol_layout.specs.Kept.{sections_now};

use crate::building::put_sections;
use crate::scope::{Entry, StructScope};
use crate::table::Table;
use crate::walking::after_path;
use name_tables::key_of;
use s7_base::{NoMemory, rest_after};
use std::alloc::Global;
use std::marker::Model;
use stl_rules::Component;
use stl_tree::{Declaration, PathStep};
use symbol_layout::{Placed, component_at};

/// Sections of declarations whose components are found by maps. Contracts see the sections.
#[derive(Drop)]
pub struct Components<'d> {
    sections: Vec<&'d [Declaration]>,

    /// The scopes of every STRUCT inside the sections.
    scopes: Vec<StructScope<'d>>,

    /// The names of all sections, which are one scope.
    names: Table<'d>,
}

impl<'d> Model for Components<'d> {
    ghost use Rattle.std.specs.Prelude.{List};
    ghost use Rattle.std.specs.Coded.{codes};
    ghost use Rattle.stl_tree.specs.declared.raw.Declaration.{Declaration};
    ghost use Rattle.stl_tree.specs.contracts.raw.DeclType as declared;
    ghost use Rattle.stl_tree.specs.contracts.raw.Declaration as declaration;
    ghost use Rattle.stl_rules.specs.Paths.{named_in};
    ghost use Rattle.symbol_layout.specs.Kept.{sections_now};
    ghost use Rattle.component_index.specs.inner.Scopes.{AreScopes, IsTable, declarations_in, table_of};

    ghost Value = { List (List Declaration) };

    ghost coded = { Prim.hlevel (codes, declared.the_row.coded, declaration.the_row.coded) };

    ghost view = { λ c. sections_now c.sections.items };

    ghost invariant = { λ c. AreScopes c.scopes.items × IsTable (declarations_in c.scopes.items) (named_in 0 (sections_now c.sections.items)) (table_of c.names) };
}

/// The component of an entry.
fn component_of(found: Option<Entry<'_>>) -> Option<Component>
    ensures { result ≡ option_map component_at (option_map placed_of_entry found.entry) }
{
    let entry = found?;
    Some(component_at(Placed {
        place: entry.place,
        ty: entry.ty,
    }))
}

impl<'d> Components<'d> {
    /// The index of sections.
    pub fn new(alloc: Global, sections: &[&'d [Declaration]]) -> Result<Components<'d>, NoMemory>
        ensures { IfOk result (λ all. all ≡ sections_now sections.now) }
    {
        let mut scopes = Vec::new(alloc);
        let names = put_sections(alloc, &mut scopes, sections)?;
        let mut own = Vec::with_capacity(alloc, sections.len())?;
        own.extend_from_slice(sections)?;
        Ok(Components {
            sections: own,
            scopes,
            names,
        })
    }

    /// The sections that were indexed.
    pub fn sections(&self) -> &[&'d [Declaration]]
        ensures { sections_now result.now ≡ self.now }
    {
        self.sections.as_slice()
    }

    /// Whether a declaration of a section has a name.
    pub fn declares(&self, alloc: Global, name: &[u8]) -> Result<bool, NoMemory>
        ensures { IfOk result (λ found. found ≡ is_declared name.now self.now) }
    {
        let key = key_of(alloc, name)?;
        Ok(self.names.find(key.as_slice()).is_some())
    }

    /// The component of a declaration of a section by its name.
    pub fn component_named(&self, alloc: Global, name: &[u8]) -> Result<Option<Component>, NoMemory>
        ensures { IfOk result (λ at. at ≡ component_behind self.now name.now []) }
    {
        self.component_behind(alloc, name, &[])
    }

    /// The component that a name and the path after it name.
    fn component_behind(
        &self,
        alloc: Global,
        name: &[u8],
        path: &[PathStep],
    ) -> Result<Option<Component>, NoMemory>
        ensures { IfOk result (λ at. at ≡ component_behind self.now name.now path.now) }
    {
        let key = key_of(alloc, name)?;
        let Some(start) = self.names.find(key.as_slice()) else {
            return Ok(None);
        };
        let at = after_path(alloc, self.scopes.as_slice(), start, path)?;
        Ok(component_of(at))
    }

    /// The component that a path names; `None` exactly where it names nothing that is declared. A place past
    /// the byte 4,294,967,295 is kept as the last bit of that byte.
    pub fn component(&self, alloc: Global, path: &[PathStep]) -> Result<Option<Component>, NoMemory>
        ensures { IfOk result (λ at. at ≡ component_in self.now path.now) }
    {
        let [first, ..] = path else {
            return Ok(None);
        };
        match first {
            PathStep::Index(_) => Ok(None),
            PathStep::Name(name) => self.component_behind(
                alloc,
                name.as_slice(),
                rest_after(path, 1),
            ),
        }
    }
}
