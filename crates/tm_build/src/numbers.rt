// Items as the values of a packet.
ghost use Rattle.std.specs.Prelude.{◌≡◌, ◌≤◌, ◌^◌, pos, slice_get, true};
ghost use Rattle.std.specs.Option.{option_copied};
ghost use Rattle.bit_field.specs.Numbers.{has_number};
ghost use Rattle.build_rules.specs.Laying as Spec;

use build_rules::Item;
use mib_model::{Ended, Name, Shape, Sort, Value};
use struct_plan::{Numbers, ValueField, WalkEnd};

/// Items as a source of values: each is the value behind as many others as there are items before it. Contracts see the items.
#[derive(Drop)]
pub struct ItemNumbers<'a> {
    items: &'a [Item],
}

impl<'a> ItemNumbers<'a> {
    /// These items.
    pub fn new(items: &'a [Item]) -> ItemNumbers<'a>
        ensures { result.items.now ≡ items.now }
    {
        ItemNumbers { items }
    }
}

// Two to the power of so many.
fn power(exponent: u16) -> i128
    requires { exponent ≤ 64 }
    ensures { result ≡ pos (2 ^ exponent) }
{
    1 << exponent
}

// Whether a raw number is one of a shape whose sort has numbers of this width.
fn fits_number(shape: Shape, raw: i128) -> bool
    requires { has_number shape.sort ≡ true }
    ensures { result ≡ Spec.fits shape raw }
{
    let width = shape.width();
    match shape.sort() {
        Sort::Signed => {
            let half = power(width - 1);
            -half <= raw && raw < half
        }
        _ => 0 <= raw && raw < power(width),
    }
}

// Whether a raw number is one of a shape; a sort without numbers has 0 alone.
fn fits(shape: Shape, raw: i128) -> bool
    ensures { result ≡ Spec.fits shape raw }
{
    match shape.sort() {
        Sort::Unsigned | Sort::Signed => fits_number(shape, raw),
        _ => raw == 0,
    }
}

// The item behind so many others, if there is one.
fn item_at(items: &[Item], at: usize) -> Option<&Item>
    ensures { option_copied result ≡ slice_get items.now at }
{
    items.get(at)
}

// The raw number of an item of this name, if there is one.
fn raw_named(item: Option<&Item>, name: &Name) -> Result<i128, WalkEnd>
    ensures { result ≡ Spec.raw_of (option_copied item.entry) name.now }
{
    match item {
        Some(item) if item.name == *name => Ok(item.raw),
        _ => Err(WalkEnd::Missing),
    }
}

// A raw number of a shape as a value at a cursor, which may not stand before the packet.
fn value_laid(name: Name, shape: Shape, cursor: i128, raw: i128) -> Result<Value, WalkEnd>
    ensures { result ≡ Spec.value_laid name shape cursor raw }
{
    if cursor < 0 {
        return Err(WalkEnd::Ended(Ended::Short { name }));
    }
    if !fits(shape, raw) {
        return Err(WalkEnd::Unfit);
    }
    Ok(Value {
        raw,
        at: cursor.min(i128::from(u64::MAX)) as u64,
        name,
        shape,
    })
}

impl Numbers for ItemNumbers<'_> {
    ghost source = { λ numbers. Spec.of_items numbers.items.now };

    fn value(&self, cursor: i128, field: &ValueField, given: u32) -> Result<Value, WalkEnd> {
        match raw_named(item_at(self.items, given as usize), &field.name) {
            Ok(raw) => value_laid(field.name, field.shape, cursor, raw),
            Err(why) => Err(why),
        }
    }
}
