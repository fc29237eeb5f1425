//! Laws of the texts of reports and of statuses. A function here does nothing: its contract is the law.
pub mod reports;
pub mod statuses;
