// What workers do.
ghost use Rattle.std.specs.Prelude.{◌≡◌, IfOk, IsTrue, vec_len};
ghost use Rattle.decode_session.specs.Cells.{packet_in};
ghost use Rattle.packet_jobs.specs.Drawn.{IsDrawn};
ghost use Rattle.packet_jobs.specs.Tasks.{IsSame, IsWorked, number_in};

use crate::job::{Job, Task};
use decode_pool::Work;
use decode_session::{Buffers, PacketCell};
use edition_plans::Plans;
use packet_sheets::{DrawingTool, draw_packet};
use param_plan::Params;
use std::alloc::{AllocError, Global};
use std::marker::PhantomData;
use std::sync::Mutex;
use std::sync::atomic::{AtomicBool, Ordering};
use struct_plan::Structures;
use work_queue::Numbered;

impl<P: Structures + Drop> Numbered for Task<P> {
    ghost number_of = { λ task. number_in task };

    fn number(&self) -> u64 {
        match self {
            Task::End => 0,
            Task::Packet(job) => job.cell.number,
        }
    }
}

/// What a worker does: it draws the record of a job's packet by the plans of the job's handle, with a tool of its own. Whoever works
/// without a tool leaves a job as it is.
#[derive(Drop)]
pub struct Drawing<P> {
    tools: Vec<Mutex<DrawingTool>>,
    has_begun: AtomicBool,
    plans: PhantomData<P>,
}

// Draws the record of a cell's packet, and tells whether its sheet has room for that.
fn draw_in<P: Plans>(plans: &P, cell: &mut PacketCell, tool: &mut DrawingTool) -> bool
    ensures number { cell.new.number ≡ cell.old.number }
    ensures packet { packet_in cell.new ≡ packet_in cell.old }
    ensures drawn { IsTrue result → IsDrawn (P.tables plans.now) cell.new }
{
    let number = cell.number;
    let octets = cell.octets as usize;
    let Buffers { frame, sheet } = &mut *cell.buffers;
    let packet = &frame.slice()[..octets];
    draw_packet(plans, &[], number, packet, tool, sheet)
}

impl<P: Plans + Drop> Job<P> {
    // Draws the record of its packet by the plans of its handle, where its sheet has room for that.
    fn draw(&mut self, tool: &mut DrawingTool)
        ensures { IsSame P.tables self.old self.new }
    {
        self.is_drawn = false;
        let is_drawn = draw_in(&*self.handle, &mut self.cell, tool);
        self.is_drawn = is_drawn;
    }
}

impl<P> Drawing<P> {
    /// A tool for each of so many workers. An error is want of memory.
    pub fn new(alloc: Global, params: &Params, workers: u8) -> Result<Drawing<P>, AllocError>
        ensures tools { IfOk result (λ drawing. vec_len drawing.tools ≡ workers) }
    {
        let mut tools = Vec::with_capacity(alloc, usize::from(workers))?;
        for _worker in 0..workers {
            tools.push(Mutex::new(DrawingTool::new(alloc, params)?))?;
        }
        Ok(Drawing {
            tools,
            has_begun: AtomicBool::new(false),
            plans: PhantomData,
        })
    }

    /// Whether a worker has begun.
    pub fn has_begun(&self) -> bool {
        self.has_begun.load(Ordering::SeqCst)
    }
}

impl<P: Plans + Drop + Send + Sync> Work for Drawing<P> {
    type Cell = Task<P>;

    ghost made = { λ _ before after. IsWorked P.tables before after };

    #[tactic(auto, using(crate::proofs::TaskFacts::worked_same))]
    fn work(&self, _task: &mut Task<P>) {}

    #[tactic(auto, using(crate::proofs::TaskFacts::worked_same))]
    fn work_by(&self, worker: usize, task: &mut Task<P>) {
        self.has_begun.store(true, Ordering::SeqCst);
        let Task::Packet(job) = task else {
            return;
        };
        if worker < self.tools.len() {
            if let Some(mut tool) = self.tools[worker].try_lock() {
                job.draw(&mut tool);
            }
        }
    }
}
