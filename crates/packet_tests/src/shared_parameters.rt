// A plan of a parameter is shared where its rows are the same.
ghost use Rattle.std.specs.Prelude.{◌≡◌};

use crate::books::{book_of, name, parameter};
use mib_keys::sound;
use mib_model::Steps;
use mib_tables::Book;
use param_plan::Params;
use param_set::params_of;
use std::alloc::{AllocError, Global};
use std::marker::Brand;
use std::process::Abort;
use std::sync::Arc;
use std::sync::ledger::{Blank, Ledger};
use std::test::Fail;

// The plans of a book, which is sound.
fn planned<L: Ledger>(
    alloc: Global,
    base: &Params,
    book: &Book,
    steps: &mut Steps<L>,
) -> Result<Params, AllocError> {
    match sound(alloc, book) {
        Ok(()) => Ok(params_of(alloc, base, book, steps)?.params),
        Err(_) => Err(AllocError),
    }
}

// How many share each plan.
fn expect_shares<R: Abort>(rt: &R, params: &Params) {
    assert_eq!(rt; params.len(), 2);
    assert_eq!(rt; Arc::strong_count(params.plan(0)), 2);
    assert_eq!(rt; Arc::strong_count(params.plan(1)), 1);
}

fn book<R: Abort>(rt: &R, alloc: Global) -> Result<Book, AllocError> {
    let (c, a) = (name(rt, b"C"), name(rt, b"A"));
    book_of(alloc, &[parameter(c, None, 4, 0), parameter(a, None, 4, 0)])
}

// Gives `C` another width, and makes the plans of what results.
fn edited<L: Ledger, R: Abort>(
    rt: &R,
    alloc: Global,
    first: &Params,
    book: &mut Book,
    steps: &mut Steps<L>,
) -> Result<(), AllocError> {
    book.put(parameter(name(rt, b"C"), None, 4, 16))?;
    let second = planned(alloc, first, book, steps)?;
    expect_shares(rt, first);
    assert_eq!(rt; second.len(), 2);
    Ok(())
}

fn shares<L: Ledger, R: Abort>(
    rt: &R,
    alloc: Global,
    book: &mut Book,
    steps: &mut Steps<L>,
) -> Result<(), AllocError> {
    let nothing = Params::new(alloc, Vec::new(alloc))?;
    let first = planned(alloc, &nothing, book, steps)?;
    assert_eq!(rt; first.place(name(rt, b"A")), Some(0));
    edited(rt, alloc, &first, book, steps)
}

fn edits<L: Ledger, R: Abort>(rt: &R, alloc: Global, blank: Blank) -> Result<(), AllocError>
    requires name { blank.name ≡ L.name }
    requires parts { blank.parts ≡ L.parts }
    requires one { blank.parts ≡ 1 }
{
    let mut book = book(rt, alloc)?;
    let mut steps = Steps::<L>::new(blank);
    shares(rt, alloc, &mut book, &mut steps)
}

#[test]
fn a_plan_is_shared_where_its_rows_are_the_same(rt: HostRuntime) -> Result<(), Fail> {
    edits::<Brand, HostRuntime>(&rt, rt.alloc(), Blank::new(1))?;
    Ok(())
}
