//! The state of a register.
ghost use Rattle.std.specs.Prelude.{◌≡◌, ◌≤◌, ◌<◌, map, length, vec_len, vec_capacity};
ghost use Rattle.std.specs.Arc.{arc_value};
ghost use Rattle.std.specs.VecDeque.{deque_capacity, deque_len};
ghost use Rattle.edition_register.specs.Starts.{AllReady, AllReady-prop, Rises, Rises-prop, pair_of};

use crate::start::Pending;
use mib_model::{MadeFor, Rows};
use std::collections::VecDeque;
use std::sync::Arc;

/// The number of the next packet, a handle of each edition, the activation in use, and those that are pending in the
/// order of their first packets. Past activations aren't kept. Room for all that can be is reserved.
#[derive(Drop)]
pub struct Editions<E: Rows + Drop, B: MadeFor + Drop> {
    pub(crate) next: u64,
    pub(crate) handles: Vec<Arc<E>>,
    pub(crate) from: u64,
    pub(crate) edition: u32,
    pub(crate) waiting: VecDeque<Pending<E, B>>,
    ghost reserved: { (64 ≤ vec_capacity handles) × (16 ≤ deque_capacity waiting) },
    ghost few: { (vec_len handles ≤ 64) × (deque_len waiting ≤ 16) },
    ghost before: { from < next },
    ghost stands: { (1 ≤ edition) × (edition ≤ vec_len handles) },
    ghost rises: { Rises next (map pair_of waiting.items) } by { Rises-prop next (map pair_of waiting.items) },
    ghost ready: { AllReady E.tables B.made_for (map (λ a. E.tables (arc_value a)) handles.items) waiting.items } by { AllReady-prop E.tables B.made_for (map (λ a. E.tables (arc_value a)) handles.items) waiting.items },
}

unsafe impl<E: Rows + Drop + Send + Sync, B: MadeFor + Drop + Send> Send for Editions<E, B> {}
