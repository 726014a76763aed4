//! The top call where no worked case of the program reaches: ends that fail, and brakes that a test
//! chooses.
#![tactic(auto)]

#[cfg(test)]
mod brakes;
#[cfg(test)]
mod faults;
#[cfg(test)]
mod top;
