//! What is written of small elements, and of each character that has a name, so that the calls of `fx_svg` are
//! seen to succeed, which no contract says, and the names and escapes are compared with what XML says.
#![tactic(auto)]

#[cfg(test)]
mod written;
