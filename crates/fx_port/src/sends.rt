//! What goes to other threads, and what threads share. The functions do nothing: that they are there says
//! it.
use crate::notes::Notes;
use crate::passes::Passes;
use crate::run_brand::RunBrand;
use crate::sources::Sources;
use crate::thread_port::ThreadPort;
use fx_queue::FiberQueue;
use fx_word::Words;
use std::sync::Wait;

fn sends<T: Send>(_x: &T) {}

fn shares<T: Sync>(_x: &T) {}

/// A port goes to other threads.
pub fn port_goes<'a, R: Wait + Sync, N: RunBrand + Send>(port: &ThreadPort<'a, R, N>) {
    sends(port);
}

/// Notes go to other threads, and so do passes without their port.
pub fn notes_go<N: RunBrand + Send>(notes: &Notes<N>, passes: &Passes) {
    sends(notes);
    sends(passes);
}

/// What ports borrow is shared.
pub fn place_is_shared(words: &Words, queues: &Vec<FiberQueue>, sources: &Sources) {
    shares(words);
    shares(queues);
    shares(sources);
}
