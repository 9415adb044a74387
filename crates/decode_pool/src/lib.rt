//! Workers that take cells, work them and give results.
//!
//! `run_batch` works a whole list of cells, and waits for nobody. `Pool::serve` runs workers between two queues: each gets
//! cells, works them and puts the results, until it gets a cell of number 0. Stands on `tm_io` for the gate and on
//! `work_queue` for the queues.
#![tactic(auto)]

mod batch;
mod pool;
mod work;

pub use batch::run_batch;
pub use pool::Pool;
pub use work::{Work, accounts_of_a_pool, each_result_is_of_its_job};
