ghost use Rattle.std.specs.Prelude.{◌≡◌, ◌++◌, ◌∷◌, [], IfOk, OnOk, map};
ghost use Rattle.mib_model.specs.Parameters as Spec;
ghost use Rattle.mib_model.specs.Plans.{type_item};
ghost use Rattle.type_items.specs.Items as Items;

use mib_index::Firsts;
use mib_model::{Endian, Name, PcfRow, TypeItem};
use row_keys::{ByName, Named};
use std::alloc::{AllocError, Global};
use std::marker::Model;

/// Parameters where they stand, found by their names, for their type items. Contracts see the rows of the parameters.
#[derive(Drop)]
pub struct TypeItems<'a> {
    parameters: Firsts<'a, ByName<PcfRow>>,
}

impl<'a> Model for TypeItems<'a> {
    ghost use Rattle.std.specs.Prelude.{List};
    ghost use Rattle.mib_model.specs.declared.rows.PcfRow.{PcfRow};

    ghost Value = { List PcfRow };

    ghost view = { λ items. items.parameters };
}

// The octet order that a letter asks for.
fn endian_of(letter: u8) -> Endian
    ensures { result ≡ Spec.endian_of letter }
{
    if letter == b'L' { Endian::L } else { Endian::B }
}

/// What a plan depends on of a parameter.
pub fn item_of(row: &PcfRow) -> TypeItem
    ensures { result ≡ type_item row.now }
{
    TypeItem {
        name: row.name,
        ptc: row.ptc,
        pfc: row.pfc,
        width: row.width,
        natur: row.natur,
        endian: endian_of(row.endian),
    }
}

impl<'a> TypeItems<'a> {
    /// Those of some parameters. An error is want of memory.
    pub fn new(alloc: Global, parameters: &'a [PcfRow]) -> Result<TypeItems<'a>, AllocError>
        ensures { IfOk result (λ items. items ≡ parameters.now) }
    {
        Ok(TypeItems {
            parameters: Firsts::mapped(alloc, parameters)?,
        })
    }

    /// That of the first parameter of a name, in one probe.
    pub fn find(&self, name: &Name) -> Option<TypeItem>
        ensures { result ≡ Items.item_of self.now name.now }
    {
        Some(item_of(self.parameters.find(name)?))
    }

    // Puts that of the parameter of a name behind the others, if there is one.
    fn add(&self, items: &mut Vec<TypeItem>, name: &Name) -> Result<(), AllocError>
        ensures { OnOk result (items.new.items ≡ items.old.items ++ Items.items_of self.now (name.now ∷ [])) }
    {
        match self.find(name) {
            Some(item) => items.push(item)?,
            None => {}
        }
        Ok(())
    }

    /// Those of the parameters that rows name, in the order of the rows; a name without a parameter has none. An error is
    /// want of memory.
    pub fn of_rows<R: Named>(&self, alloc: Global, rows: &[R]) -> Result<Vec<TypeItem>, AllocError>
        ensures { IfOk result (λ items. items.items ≡ Items.items_of self.now (map R.name_of rows.now)) }
    {
        let mut items = Vec::new(alloc);
        for row in rows {
            self.add(&mut items, &row.name())?;
        }
        Ok(items)
    }
}
