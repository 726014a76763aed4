//! Tests of what one thread hands to another, and of a memory of cells: a member that goes through
//! a door, the text of a large memory, news of a call, a call whose machine is lost, a look at the
//! last call of another number, a call on cells that is stopped and goes on, and tasks that work on
//! cells at once. There is nothing to call here.
#![tactic(auto)]

#[cfg(test)]
mod cells;
#[cfg(test)]
mod doors;
#[cfg(test)]
mod images;
#[cfg(test)]
mod looks;
#[cfg(test)]
mod lost;
#[cfg(test)]
mod news;
#[cfg(test)]
mod tasks;
