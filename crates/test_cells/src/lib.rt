//! A bank that starts from durable words, and two worked schedules of three callers, computed as a
//! law. There is nothing to call here.
#![tactic(auto)]

#[cfg(test)]
mod starts;
#[cfg(test)]
mod three_callers;
