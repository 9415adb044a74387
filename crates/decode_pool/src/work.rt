ghost use Rattle.decode_pool.specs.Flow.{EachResultIsOfItsJob, AccountsOfAPool};
ghost use Rattle.decode_pool.specs.Joins.{EachJoinedResultIsOfItsJob};

use work_queue::Numbered;

/// What a worker does with a cell.
pub trait Work {
    type Cell: Numbered + Send + Drop;

    /// Whether a value may make the second cell of the first.
    ghost made: { Self → Self.Cell → Self.Cell → Type 0 };

    /// Makes the cell's result in its place.
    fn work(&self, cell: &mut Self::Cell)
        ensures { made self.now cell.old cell.new };

    /// Makes the cell's result in its place, done by the worker of this place in a pool, counted from 0: for work whose workers
    /// have tools each of its own. Work without tools leaves it as it is.
    fn work_by(&self, _worker: usize, cell: &mut Self::Cell)
        ensures { made self.now cell.old cell.new }
    {
        self.work(cell);
    }
}

/// What `Pool::serve` leaves in the accounts of all passes together, with no work of its own: the jobs that were worked, an
/// end for each worker, and a result for each job that was worked.
pub fn accounts_of_a_pool<W: Work>()
    ensures { (work : W) → AccountsOfAPool (W.made work) W.Cell.number_of }
{}

/// The law of a pool, with no work of its own: where workers keep the numbers of cells, and no two jobs have one number
/// but for 0, each result that was taken is the one that `work` makes of the job put under its number, and none was taken
/// twice.
pub fn each_result_is_of_its_job<W: Work>()
    ensures { (work : W) → EachResultIsOfItsJob (W.made work) W.Cell.number_of }
{}

/// The law of the join, with no work of its own, for a caller that puts the jobs of a pool: where workers keep the numbers
/// of cells and the numbers of the jobs rise, each result that the caller took or made itself is the one that `work` makes
/// of the job put under its number, and none came twice. It is known once all passes are joined.
pub fn each_joined_result_is_of_its_job<W: Work>()
    ensures { (work : W) → EachJoinedResultIsOfItsJob (W.made work) W.Cell.number_of }
{}
