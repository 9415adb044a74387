use commit_order::Window;
use decode_session::Room;
use edition_register::Register;
use fold_state::BoardRoom;
use mib_model::Rows;
use packet_jobs::{Drawing, RecordRoom, Task};
use struct_plan::Structures;
use work_queue::{Pass, Queue};

/// What the caller of a run shares with its workers: the two queues, what a worker does, and how many rooms the run has.
#[derive(Drop)]
pub struct Crew<P: Structures + Drop> {
    pub jobs: Queue<Task<P>>,
    pub results: Queue<Task<P>>,
    pub drawing: Drawing<P>,
    pub rooms: u16,
}

/// What the intake of a run goes by: the runtime, what it shares with its workers, the gate that they call, and the register.
#[derive(Drop)]
pub(crate) struct Intake<'r, 'c, 'g, 'e, P: Structures + Rows + Drop, R, G> {
    pub rt: &'r R,
    pub crew: &'c Crew<P>,
    pub gate: &'g G,
    pub register: &'e Register<P, BoardRoom>,
}

/// The caller's side of a run: its passes of both queues, the results that wait for their turn, the rooms that are free, the room
/// for records, how many packets were committed and read, and how many workers there are to end.
#[derive(Drop)]
pub struct Pipeline<P: Structures + Drop> {
    pub first: Pass<Task<P>>,
    pub second: Pass<Task<P>>,
    pub window: Window<Task<P>>,
    pub rooms: Vec<Room>,
    pub record: RecordRoom,
    pub done: u64,
    pub read: u64,
    pub workers: u8,
    // How often the caller looks yet whether a worker has begun, before it takes jobs back.
    pub patience: u32,
}
