// Packets are drawn.
ghost use Rattle.decode_session.specs.Ahead.{IsDrawn};
ghost use Rattle.decode_session.specs.Finishing.{AreDemandsIn};

use crate::job::DrawingJob;
use decode_pool::Work;
use edition_plans::Plans;
use packet_sheets::{DrawingTool, draw_stretch};
use param_state::Demand;
use std::sync::{Mutex, MutexGuard};

/// What a worker does: it draws the packets of a job by these plans and demands, with a tool that no other has.
#[derive(Drop)]
pub(crate) struct Drawing<'a, P> {
    pub plans: &'a P,
    pub demands: &'a [Demand],
    pub tools: &'a [Mutex<DrawingTool>],
}

// A tool that no other thread has. There are as many as threads.
fn free_tool(tools: &[Mutex<DrawingTool>]) -> Option<MutexGuard<'_, DrawingTool>> {
    for tool in tools {
        if let Some(tool) = tool.try_lock() {
            return Some(tool);
        }
    }
    None
}

// Draws the packets of a job.
fn draw_job<P: Plans>(plans: &P, demands: &[Demand], tool: &mut DrawingTool, job: &mut DrawingJob)
    ensures { AreDemandsIn (P.tables plans.now) demands.now → IsDrawn (P.tables plans.now) job.old job.new }
{
    job.drawn = draw_stretch(
        plans,
        demands,
        job.number,
        &job.stretch,
        tool,
        &mut job.sheet,
    );
}

impl<P: Plans + Sync> Work for Drawing<'_, P> {
    type Cell = DrawingJob;

    ghost made = { λ work before after. AreDemandsIn (P.tables work.plans.now) work.demands.now → IsDrawn (P.tables work.plans.now) before after };

    #[tactic(auto, using(crate::proofs::AheadFacts::drawn_same))]
    fn work(&self, job: &mut DrawingJob) {
        if job.stretch.len() == 0 {
            return;
        }
        let Some(mut tool) = free_tool(self.tools) else {
            return;
        };
        draw_job(self.plans, self.demands, &mut tool, job);
    }
}
