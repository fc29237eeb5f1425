//! What is found of small scripts, and what is printed of findings that are made by hand, compared or not, with its status, so
//! that searches and the calls of `fx_findings` are seen to succeed, which no contract says.
#![tactic(auto)]

#[cfg(test)]
mod by_the_rules;
#[cfg(test)]
mod printed;
#[cfg(test)]
mod searched_once;
#[cfg(test)]
mod small_scripts;
#[cfg(test)]
mod unused_names;
