//! Laws of what others see of whole fibers in scripts. A function here does nothing: its contract is the law.
//!
//! `fx_script_laws` puts terms for one another that show the same. Here are terms that look the same, where others see
//! less: as the whole term of main, or of fibers that are started anywhere, in a loop many times.
//!
//! | definitions | what they say |
//! |---|---|
//! | `LookAlike` | two reports look alike, but for what main noted of its own cancellation and resources |
//! | `OtherFibers` | one term is another one in which fibers begin with other terms |
//! | `FibersLookAlike` | two reports look alike, but for what some fibers noted so |
//!
//! | laws of | what they say |
//! |---|---|
//! | [`fibers`] | to each lawful report of the one script there is one of the other that looks the same |
//! | [`looks`] | which terms look the same so |
//! | [`main_fiber`] | which main fibers do, and that their scripts have reports that look the same |
#![tactic(auto)]

pub mod fibers;
pub mod looks;
pub mod main_fiber;
