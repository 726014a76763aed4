//! The tests of printed texts: scripts, plans, and why a text is refused. There is nothing to call
//! here.
#![tactic(auto)]

#[cfg(test)]
mod errors;
#[cfg(test)]
mod plans;
#[cfg(test)]
mod scripts;
