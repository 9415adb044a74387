// Where the plans of a packet's values are found.
ghost use Rattle.std.specs.Prelude.{◌≡◌};
ghost use Rattle.std.specs.List.{position};
ghost use Rattle.std.specs.Str.{bytes_eq};

use crate::fast::ahead::{FAR, touch_parts, touch_plans};
use crate::fast::guesses::Guesses;
use mib_model::{Found, Name};
use param_plan::Params;
use std::alloc::{AllocError, Global};

/// The kind of a packet, by which the places of its values are guessed: its SPID.
pub fn kind_of(found: &Found) -> u32 {
    match *found {
        Found::Spid { spid, .. } => spid,
        _ => 0,
    }
}

/// What finds the places of plans by names, first where guesses say. It says nothing.
pub struct Places {
    guesses: Guesses,
    // Made of what was read ahead.
    ahead: usize,
}

/// By hand, so that whoever lets one go proves one call.
impl Drop for Places {
    fn drop(self) {
        let Places {
            guesses: _guesses,
            ahead: _,
        } = self;
    }
}

impl Places {
    /// What finds the places of these plans. An error is want of memory.
    pub fn new(alloc: Global, params: &Params) -> Result<Places, AllocError> {
        Ok(Places {
            guesses: Guesses::of_plans(alloc, params)?,
            ahead: 0,
        })
    }

    /// Reads ahead what will be asked of the plans of a packet that is found so and has so many values, and tells where the
    /// guesses of their places begin.
    pub fn begin(&mut self, params: &Params, found: &Found, count: usize) -> usize {
        let first = self.guesses.row(kind_of(found), count);
        if params.len() >= FAR {
            let places = self.guesses.places(first, count);
            let parts = touch_parts(params, params.plain(), places);
            self.ahead = touch_plans(params, &[], places) ^ parts;
        }
        first
    }

    /// The place of the plan of a name, which is looked for first where a guess says.
    #[inline(always)]
    pub fn place(&mut self, params: &Params, near: usize, name: &Name) -> Option<usize>
        ensures { result ≡ position (λ slice. bytes_eq slice.pcf.name name.now) params.now }
    {
        let guess = self.guesses.place(near);
        if params.is_at(guess, name) {
            return Some(guess);
        }
        self.place_noted(params, near, name)
    }

    // The place of the plan of a name for which a guess was wrong, which is noted for the next time.
    #[inline(never)]
    fn place_noted(&mut self, params: &Params, near: usize, name: &Name) -> Option<usize>
        ensures { result ≡ position (λ slice. bytes_eq slice.pcf.name name.now) params.now }
    {
        let at = params.place_near(self.guesses.named(name), name);
        if let Some(at) = at {
            self.guesses.note(near, at);
        }
        at
    }
}
