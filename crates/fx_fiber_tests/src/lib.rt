//! What a fiber of `fx_fiber` does, in runs of one fiber over a port that is written here by hand. Traces and
//! answers are counted from the table of its rules, a file a family. The contracts say them too; that the
//! rules say what is meant is seen here, and what no contract says: how often a fiber looks.
#![tactic(auto)]

#[cfg(test)]
mod alone;
#[cfg(test)]
mod fiber;
#[cfg(test)]
mod outside;
#[cfg(test)]
mod stamps;
