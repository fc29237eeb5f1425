//! What `fx_sched` and the turns of `fx_fiber` do with fibers over the simplest port of several threads, in
//! which all that they share stands behind one lock. The contracts say what holds of each fiber; which
//! fiber comes first, and that several workers run, is seen here alone.
#![tactic(auto)]

#[cfg(test)]
mod board;
#[cfg(test)]
mod deques;
#[cfg(test)]
mod gates;
#[cfg(test)]
mod locked_port;
#[cfg(test)]
mod lot;
#[cfg(test)]
mod notes;
#[cfg(test)]
mod play;
#[cfg(test)]
mod rounds;
#[cfg(test)]
mod steps;
#[cfg(test)]
mod turns;
