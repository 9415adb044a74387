//! Pieces that are written, moved to threads and given back.
ghost use Rattle.std.specs.Prelude.{◌≡◌, ◌+◌, ◌<◌, length};

use frame_region::{Piece, Region};
use std::process::Abort;
use std::test::Fail;
use std::thread;
use std::thread::Threads;

// Writes the first value of a piece.
fn mark(mut piece: Piece<u8>, value: u8) -> Piece<u8>
    requires { 0 < length piece }
    ensures { length result ≡ length piece }
{
    piece.slice_mut()[0] = value;
    piece
}

// Two pieces go to two threads, which mark them.
fn mark_both<R: Threads + Sync>(rt: &R, one: Piece<u8>, two: Piece<u8>) -> (Piece<u8>, Piece<u8>)
    requires { (length one ≡ 3) × (length two ≡ 3) }
    ensures { (length result.0 ≡ 3) × (length result.1 ≡ 3) }
{
    thread::join(
        rt,
        move ||
            requires { length one ≡ 3 }
            ensures { length result ≡ 3 }
        { mark(one, 1) },
        move ||
            requires { length two ≡ 3 }
            ensures { length result ≡ 3 }
        { mark(two, 2) },
    )
}

// A piece that is at home in a region whose pieces have three values.
fn take_three<R: Abort>(rt: &R, region: &mut Region<u8>) -> Piece<u8>
    requires { region.old.size ≡ 3 }
    ensures size { region.new.size ≡ 3 }
    ensures three { length result ≡ 3 }
    ensures out { region.new ≡ record region.old { out = region.old.out + 1 } }
{
    region.take().expect(rt, "a piece is at home")
}

#[test]
fn a_write_to_one_piece_changes_no_other(rt: HostRuntime) -> Result<(), Fail> {
    let mut region = Region::new(rt.alloc(), 2, 3, 0u8)?;
    let one = take_three(&rt, &mut region);
    let two = take_three(&rt, &mut region);
    assert!(rt; region.take().is_none());
    let (one, two) = mark_both(&rt, one, two);
    assert_eq!(rt; one.slice(), [1, 0, 0].as_slice());
    assert_eq!(rt; two.slice(), [2, 0, 0].as_slice());
    region.give(one);
    region.give(two);
    assert!(rt; region.take().is_some());
    Ok(())
}
