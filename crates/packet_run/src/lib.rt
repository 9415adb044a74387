//! One run over the packets of a feed: each is stamped as it is read, drawn by a worker, and printed in the order of the stamps.
//!
//! `run_packets` puts the packets of a feed into a queue, workers draw their records, and their results wait in a window for their turn. What a
//! result is, is proved for all results at once, when the passes of all queues are joined at the end: until then the run keeps an
//! implication (`specs/Piping`). It takes no memory: a `Stock` is reserved before it begins. It rests on `packet_jobs` for what is done to
//! one packet, on `decode_session` for packets and rooms, on `decode_pool`, `work_queue` and `commit_order` for workers and the
//! order, and on `edition_register` for stamps.
#![tactic(auto)]

mod alone;
mod beside;
mod commit;
mod ends;
mod finishing;
mod parts;
mod pipeline;
mod reading;
mod run;
mod stock;
mod top;
mod until;
mod watch;

pub use stock::{MOST_WORKERS, Stock};
pub use top::run_packets;
pub use watch::{NoWatch, Watch};
