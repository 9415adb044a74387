// Shapes by type codes.
ghost use Rattle.std.specs.Prelude.{◌≡◌, ◌≤◌, true, Some, None, option_map};
ghost use Rattle.mib_model.specs.Encodings as Spec;

use mib_model::{Endian, Order, Shape, Sort};

// A width where a condition holds.
fn width_if(holds: bool, width: u16) -> Option<u16>
    ensures { result ≡ Spec.width_if holds width }
{
    if holds { Some(width) } else { None }
}

// The widths of unsigned and signed integers.
fn integer_width(pfc: u16) -> Option<u16>
    ensures { result ≡ Spec.integer_width pfc }
{
    match pfc {
        0..=12 => Some(pfc + 4),
        13 => Some(24),
        14 => Some(32),
        15 => Some(48),
        16 => Some(64),
        _ => None,
    }
}

// The widths of real numbers.
fn real_width(pfc: u16) -> Option<u16>
    ensures { result ≡ Spec.real_width pfc }
{
    match pfc {
        1 => Some(32),
        2 => Some(64),
        3 => Some(32),
        4 => Some(48),
        _ => None,
    }
}

// A sort of some width.
fn sorted_as(sort: Sort, width: Option<u16>) -> Option<(Sort, u16)>
    ensures { result ≡ Spec.sorted_as sort width }
{
    Some((sort, width?))
}

// Times in coarse and fine octets.
fn unsegmented_time(pfc: u16) -> Option<(Sort, u16)>
    ensures { result ≡ Spec.unsegmented_time pfc }
{
    if !(3..=18).contains(&pfc) {
        return None;
    }
    let coarse = (pfc + 1) / 4;
    let fine = (pfc + 1) % 4;
    let sort = Sort::Cuc {
        coarse: coarse as u8,
        fine: fine as u8,
    };
    Some((sort, 8 * (coarse + fine)))
}

fn absolute_time(pfc: u16) -> Option<(Sort, u16)>
    ensures { result ≡ Spec.absolute_time pfc }
{
    match pfc {
        1 => Some((Sort::Cds, 48)),
        2 => Some((Sort::Cds, 64)),
        _ => unsegmented_time(pfc),
    }
}

// The sort and the width of a type code and a format code.
#[tactic(auto, unfolding(mib_model::specs::Encodings::type_of))]
fn type_of(ptc: u8, pfc: u16) -> Option<(Sort, u16)>
    ensures { result ≡ Spec.type_of ptc pfc }
{
    match ptc {
        1 => sorted_as(Sort::Unsigned, width_if(pfc == 0, 1)),
        2 => sorted_as(Sort::Unsigned, width_if((1..=32).contains(&pfc), pfc)),
        3 => sorted_as(Sort::Unsigned, integer_width(pfc)),
        4 => sorted_as(Sort::Signed, integer_width(pfc)),
        5 => sorted_as(Sort::Real, real_width(pfc)),
        6 => sorted_as(Sort::Unsigned, width_if((1..=64).contains(&pfc), pfc)),
        7 if (1..=1024).contains(&pfc) => Some((Sort::Octets, 8 * pfc)),
        8 if (1..=1024).contains(&pfc) => Some((Sort::Chars, 8 * pfc)),
        9 => absolute_time(pfc),
        10 => unsegmented_time(pfc),
        11 if pfc == 0 => Some((Sort::Deduced, 0)),
        _ => None,
    }
}

// Whether the octets of a sort may stand the other way round.
fn may_be_little(sort: Sort) -> bool
    ensures { result ≡ Spec.may_be_little sort }
{
    matches!(sort, Sort::Unsigned | Sort::Signed | Sort::Real)
}

// The order of a value's octets where one is asked for, if there is one.
fn order_of(sort: Sort, width: u16, endian: Endian) -> Option<Order>
    ensures { option_map (λ order. record { sort = sort; width = width; order = order }) result ≡ Spec.ordered endian (sort, width) }
{
    match endian {
        Endian::B => Some(Order::Big),
        Endian::L if !may_be_little(sort) => Some(Order::Big),
        Endian::L if width % 8 == 0 => Some(Order::Little),
        Endian::L => None,
    }
}

/// What the bits of a parameter's values are, by its type code, its format code and the order of octets that its row
/// asks for, if there is such a type (after the parameter types of ECSS-E-70-41A; the widths and the order `Little` are
/// this profile's).
#[tactic(auto, unfolding(mib_model::specs::Encodings::encoding_of))]
pub fn shape_of(ptc: u8, pfc: u16, endian: Endian) -> Option<Shape>
    ensures { result ≡ Spec.encoding_of ptc pfc endian }
{
    let (sort, width) = type_of(ptc, pfc)?;
    let order = order_of(sort, width, endian)?;
    Some(Shape::new(sort, width, order))
}
