//! What is drawn of a report that is made by hand, so that `format_picture` is seen to succeed, which no
//! contract says.
#![tactic(auto)]

#[cfg(test)]
mod drawn;
