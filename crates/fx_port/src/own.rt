//! What a port has beside its seat.

use crate::noted::Noted;
use crate::passes::Passes;
use crate::run_brand::RunBrand;
use crate::sources::Sources;
use fx_fiber::Source;
use fx_queue::FiberQueue;
use fx_word::Words;
use std::alloc::Global;
use std::sync::Wait;

/// What a port has beside its seat of the words. It stands behind a word, so that a fiber is handed on
/// cheaply.
#[derive(Drop)]
pub(crate) struct Own<'a, R: Wait, N: RunBrand> {
    pub rt: &'a R,
    pub alloc: Global,
    pub words: &'a Words,
    pub queues: &'a [FiberQueue],
    pub sources: &'a Sources,
    /// Its fiber's pass of each queue.
    pub passes: Passes,
    /// The numbers that were requested from outside through it.
    pub noted: Noted<N>,
    /// What the fiber last registered for, and has not come by since.
    pub waited: Option<Source>,
}
