// The calls of a pager.
ghost use Rattle.std.specs.Prelude.{◌≡◌};
ghost use Rattle.page_board.specs.Ends.{board_seen_by};
ghost use Rattle.page_watch.specs.Ends.{board_of, names_of};

use fold_state::Board;
use mib_model::Name;
use packet_run::Watch;
use page_watch::{Pager, Viewer};
use param_plan::Params;
use run_pages::{BoundPager, PageBoard};
use std::marker::Brand;
use std::sync::Wait;
use std::test::Fail;

// The number of the page that a viewer gets once its pager was told of packet 1.
fn number_shown<N: PageBoard, X: Wait>(
    rt: &X,
    pager: Pager,
    viewer: &mut Viewer,
    params: &Params,
    board: &Board,
) -> Result<u64, Fail>
    requires names { names_of pager ≡ N.names }
    requires board { board_of pager ≡ N.board }
    requires seen { board_seen_by viewer.old ≡ N.board }
{
    let mut watch = BoundPager::<N>::new(pager);
    watch.committed(rt, 1, 1, params, board);
    let note = watch.into_pager().tell()?;
    viewer.learn(note);
    Ok(viewer.look(rt).number)
}

#[test]
fn a_page_that_is_committed_comes_to_the_viewer(rt: HostRuntime) -> Result<(), Fail> {
    let alloc = rt.alloc();
    let mut names = Vec::new(alloc);
    for name in Name::new(b"T1") {
        names.push(name)?;
    }
    assert!(rt; names.len() <= 64);
    let params = Params::new(alloc, Vec::new(alloc))?;
    let board = Board::new(alloc, &params)?;
    let (pager, mut viewer) = Pager::new(&rt, names)?;
    let number = number_shown::<Brand, HostRuntime>(&rt, pager, &mut viewer, &params, &board)?;
    assert_eq!(rt; number, 1);
    Ok(())
}
