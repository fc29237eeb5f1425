//! Laws of the rules, for every run of a fiber, and of the reports of such runs. A function here does
//! nothing: its contract is the law.
pub mod cancellation;
pub mod masks;
pub mod origins;
pub mod puts;
pub mod ranges;
pub mod reports;
pub mod resources;
pub mod scopes;
pub mod stamps;
pub mod waits;
