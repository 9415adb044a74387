ghost use Rattle.std.specs.Prelude.{◌≡◌, ◌≤◌, ◌<◌, ℕ, length, slice_index_or};

use crate::Work;
use std::thread;
use std::thread::Threads;

/// Each cell becomes what `work` makes of it, whatever the number of workers. Takes no memory and waits for nobody.
pub fn run_batch<W: Work + Sync, R: Threads + Sync>(
    rt: &R,
    work: &W,
    cells: &mut [W::Cell],
    workers: u8,
)
    requires { 1 ≤ workers }
    ensures length { length cells.new ≡ length cells.old }
    ensures made { (place : ℕ) (d : W.Cell) → place < length cells.old → W.made work.now (slice_index_or cells.old place d) (slice_index_or cells.new place d) }
{
    thread::for_each_mut(rt, cells, usize::from(workers), &|_, cell| work.work(cell));
}
