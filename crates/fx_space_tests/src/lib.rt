//! Which fibers are asleep in the states of small scripts, and which of these states are noted as they are expanded: that
//! any fiber sleeps, and that any state is passed over, no contract says.
#![tactic(auto)]

#[cfg(test)]
mod one_end;
#[cfg(test)]
mod pairs;
#[cfg(test)]
mod requested;
#[cfg(test)]
mod searched;
#[cfg(test)]
mod twins;
