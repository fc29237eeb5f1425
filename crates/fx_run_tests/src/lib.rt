//! What runs of scripts on threads report: worked scripts that come to one report however their fibers
//! interleave, and scripts that race, judged by what each report must account for. That a report is lawful
//! is proved. That there is one, that workers run beside one another, and that a waiting fiber goes on by
//! its wake and not by a sweep, is seen here alone.
#![tactic(auto)]

#[cfg(test)]
mod accounts;
#[cfg(test)]
mod cancellations;
#[cfg(test)]
mod gates;
#[cfg(test)]
mod given_fibers;
#[cfg(test)]
mod idle;
#[cfg(test)]
mod late;
#[cfg(test)]
mod races;
#[cfg(test)]
mod rows;
#[cfg(test)]
mod storm;
#[cfg(test)]
mod waiters;
