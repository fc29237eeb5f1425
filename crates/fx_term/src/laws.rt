//! Laws of the definitions that contracts cite. A function here does nothing: its contract is the
//! law.

pub mod faults;
pub mod needs;
