//! Laws of the definitions. A function here does nothing: its contract is the law.
pub mod runs;
