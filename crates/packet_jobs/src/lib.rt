//! What is done to one packet of a run: a worker draws its record, its edition comes into use, and its record is appended.
//!
//! A `Job` is a packet with a handle of its edition. What `Drawing` makes of it has the number and the packet of the job, and where its record is
//! drawn, it is by the tables of that handle (`specs/Tasks`, `specs/Drawn`). `turn` brings the edition of a packet into use, with what was kept
//! before it (`specs/Turning`). `finish_job` appends the record of a job's packet, playing its sheet where that is drawn, and `finish_alone`
//! decodes a packet itself: each record is that of the interpreter's step, and so is what is kept after it. Memory is taken by `Drawing::new` and
//! `RecordRoom::new` alone. It rests on `decode_session` for packets and their rooms, on `decode_pool` and `work_queue` for workers and tasks, on
//! `edition_register` for what begins with an activation, and on `packet_sheets` and `decode_one` for records.
#![tactic(auto)]

mod finishing;
mod in_use;
mod job;
mod room;
mod turning;
mod working;

pub use finishing::{finish_alone, finish_job};
pub use in_use::InUse;
pub use job::{Job, Task};
pub use room::RecordRoom;
pub use turning::turn;
pub use working::Drawing;
