// A layout or a structure is shared where its rows and types are the same.
ghost use Rattle.std.specs.Prelude.{◌≡◌, IfOk};

use crate::books::{book_of, name, packet, parameter, place, structure_row};
use mib_model::Steps;
use mib_tables::{Book, TableSet};
use numbered_plans::{Deduced, Layout, LayoutSet, NumberedPlan, PlanSet, Structure, StructureSet};
use std::alloc::{AllocError, Global};
use std::marker::Brand;
use std::process::Abort;
use std::sync::ledger::{Blank, Ledger};
use std::test::Fail;

// Two books of two plans, of which one is of another type in the second.
#[derive(Drop)]
struct Books {
    first: Book,
    second: Book,
    plans: [u32; 2],
    other: u32,
}

// The set of a book, of which the plans of these numbers are compiled.
fn set_of<P: NumberedPlan, L: Ledger, R: Abort>(
    rt: &R,
    base: &PlanSet<P>,
    old: &Book,
    book: &Book,
    compiled: &[u32],
    steps: &mut Steps<L>,
    alloc: Global,
) -> Result<PlanSet<P>, Fail>
    requires { base.now ≡ old.now }
    ensures { IfOk result (λ set. set ≡ book.now) }
{
    let made = PlanSet::beside(alloc, base, old, TableSet::NONE, book, steps)?;
    assert!(rt; made.compiled.as_slice() == compiled);
    Ok(made.set)
}

// The set of the first book. Nothing is compiled for its rows again, and one plan for those of the second.
fn shared<P: NumberedPlan, L: Ledger, R: Abort>(
    rt: &R,
    books: &Books,
    steps: &mut Steps<L>,
    alloc: Global,
) -> Result<PlanSet<P>, Fail> {
    let Books {
        first,
        second,
        plans,
        other,
    } = books;
    let nothing = PlanSet::empty(alloc)?;
    let none = Book::empty(alloc);
    let base = set_of(rt, &nothing, &none, first, plans, steps, alloc)?;
    set_of(rt, &base, first, first, &[], steps, alloc)?;
    set_of(rt, &base, first, second, &[*other], steps, alloc)?;
    Ok(base)
}

fn on_a_ledger<P: NumberedPlan, L: Ledger, R: Abort>(
    rt: &R,
    books: &Books,
    alloc: Global,
    blank: Blank,
) -> Result<PlanSet<P>, Fail>
    requires name { blank.name ≡ L.name }
    requires parts { blank.parts ≡ L.parts }
    requires one { blank.parts ≡ 1 }
{
    shared(rt, books, &mut Steps::<L>::new(blank), alloc)
}

// Layouts 4001 and 4002 of two parameters, the second of this format.
fn laid_out<R: Abort>(rt: &R, alloc: Global, pfc: u16) -> Result<Book, AllocError> {
    let (a, b) = (name(rt, b"A"), name(rt, b"B"));
    let mut book = book_of(alloc, &[packet(4001, 100), packet(4002, 101)])?;
    book.put(parameter(a, None, 12, 0))?;
    book.put(parameter(b, None, pfc, 0))?;
    book.put(place(a, 4001))?;
    book.put(place(b, 4002))?;
    Ok(book)
}

// Structures 7 and 8 of two parameters, the second of this format.
fn structured<R: Abort>(rt: &R, alloc: Global, pfc: u16) -> Result<Book, AllocError> {
    let (a, b) = (name(rt, b"A"), name(rt, b"B"));
    let parameters = [parameter(a, Some(5), 12, 0), parameter(b, None, pfc, 0)];
    let mut book = book_of(alloc, &parameters)?;
    book.put(structure_row(7, 2, a))?;
    book.put(structure_row(8, 1, a))?;
    book.put(structure_row(7, 1, b))?;
    Ok(book)
}

#[test]
fn a_layout_is_compiled_where_its_rows_or_types_differ(rt: HostRuntime) -> Result<(), Fail> {
    let alloc = rt.alloc();
    let books = Books {
        first: laid_out(&rt, alloc, 12)?,
        second: laid_out(&rt, alloc, 4)?,
        plans: [4001, 4002],
        other: 4002,
    };
    let set: LayoutSet = on_a_ledger::<Layout, Brand, HostRuntime>(
        &rt,
        &books,
        alloc,
        Blank::new(1),
    )?;
    assert!(rt; set.layout(4001).is_some());
    assert!(rt; set.handle(4002).is_some());
    assert!(rt; set.layout(4003).is_none());
    Ok(())
}

#[test]
fn a_structure_is_compiled_where_its_rows_or_types_differ(rt: HostRuntime) -> Result<(), Fail> {
    let alloc = rt.alloc();
    let books = Books {
        first: structured(&rt, alloc, 12)?,
        second: structured(&rt, alloc, 4)?,
        plans: [7, 8],
        other: 7,
    };
    let set: StructureSet = on_a_ledger::<Structure, Brand, HostRuntime>(
        &rt,
        &books,
        alloc,
        Blank::new(1),
    )?;
    assert!(rt; set.plan(9).is_none());
    assert!(rt; set.plan(-7).is_none());
    assert!(rt; set.handle(8).is_some());
    match set.plan(7) {
        Some(structure) => assert_eq!(rt; structure.len(), 2),
        None => assert!(rt; false, "a structure"),
    }
    Ok(())
}

#[test]
fn a_deduced_parameter_is_found_by_its_number(rt: HostRuntime) -> Result<(), Fail> {
    let alloc = rt.alloc();
    let book = structured(&rt, alloc, 12)?;
    let deduced = Deduced::new(alloc, book.pcf())?;
    assert!(rt; deduced.find(5).is_some());
    assert!(rt; deduced.find(6).is_none());
    Ok(())
}
