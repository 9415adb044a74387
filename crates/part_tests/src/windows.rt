// Results that are put in order.
use commit_order::{Placed, Window};
use std::test::Fail;

// Whether the result was kept.
fn is_kept(placed: Placed<u64>) -> bool {
    matches!(placed, Placed::Kept)
}

#[test]
fn results_in_reverse_are_taken_in_order(rt: HostRuntime) -> Result<(), Fail> {
    let mut window = Window::new(rt.alloc(), 5)?;
    for round in 0..40u64 {
        for ahead in 0..5u64 {
            assert_eq!(rt; window.take_next(), None);
            let n = 5 * round + 5 - ahead;
            assert_eq!(rt; is_kept(window.place(n, 10 * n)), true, "number {n}");
        }
        for ahead in 1..6u64 {
            let n = 5 * round + ahead;
            assert_eq!(rt; window.take_next(), Some(10 * n), "number {n}");
        }
    }
    Ok(())
}

#[test]
fn a_stranger_comes_back(rt: HostRuntime) -> Result<(), Fail> {
    let mut window = Window::new(rt.alloc(), 2)?;
    let cases = [
        (0, false),
        (2, true),
        (2, false),
        (3, false),
        (1, true),
        (u64::MAX, false),
    ];
    for (n, kept) in cases {
        match window.place(n, n) {
            Placed::Kept => assert_eq!(rt; kept, true, "number {n}"),
            Placed::Stranger { result } => assert_eq!(rt; (kept, result), (false, n), "number {n}"),
        }
    }
    assert_eq!(rt;
        is_kept(Window::new(rt.alloc(), 0)?.place(1, 1)),
        false,
        "no room at all"
    );
    Ok(())
}
