//! A pager whose names and board stay.
ghost use Rattle.std.specs.Prelude.{◌≡◌, ℕ, List, []};
ghost use Rattle.atomic_table.specs.Seated.{TableId};
ghost use Rattle.page_watch.specs.Ends.{PagerStandsFor, board_of, names_of};
ghost use Rattle.run_pages.specs.Picked.{no_board};

use fold_state::Board;
use packet_run::Watch;
use page_watch::Pager;
use param_plan::Params;
use std::marker::{Brand, PhantomData};
use std::sync::Wait;

/// The names and the board of a pager, for a type to name: a caller picks those of its own pager.
pub trait PageBoard {
    /// The names of its page.
    ghost names: { List (List ℕ) };

    /// Its board.
    ghost board: { TableId };
}

impl PageBoard for Brand {
    ghost names = { [] };

    ghost board = { no_board };
}

/// A pager of these names and this board. It stands for packets as its pager does.
#[derive(Drop)]
pub struct BoundPager<N: PageBoard> {
    pub(crate) pager: Pager,
    pub(crate) bound: PhantomData<N>,
    ghost names: { names_of pager ≡ N.names },
    ghost board: { board_of pager ≡ N.board },
}

impl<N: PageBoard> BoundPager<N> {
    ghost use Rattle.run_pages.specs.Runs.{pager_of};

    /// A pager of the names and the board of its type.
    pub fn new(pager: Pager) -> BoundPager<N>
        requires names { names_of pager ≡ N.names }
        requires board { board_of pager ≡ N.board }
        ensures { pager_of result ≡ pager }
    {
        BoundPager {
            pager,
            bound: PhantomData,
        }
    }

    /// The pager, whose names and board are still those of its type.
    pub fn into_pager(self) -> Pager
        ensures pager { result ≡ pager_of self }
        ensures names { names_of result ≡ N.names }
        ensures board { board_of result ≡ N.board }
    {
        let BoundPager { pager, bound: _ } = self;
        pager
    }
}

impl<N: PageBoard> Watch for BoundPager<N> {
    ghost stands = { λ p members. PagerStandsFor p.pager members };

    fn committed<R: Wait>(
        &mut self,
        rt: &R,
        number: u64,
        edition: u32,
        _params: &Params,
        board: &Board,
    ) {
        self.pager.show(rt, number, edition, board);
    }

    fn rests<R: Wait>(&mut self, rt: &R) {
        self.pager.publish(rt);
    }
}
