//! Laws of the definitions that the contracts cite. A function here does nothing: its contract is the law.
pub mod grammar;
pub mod limits;
pub mod races;
