//! The top call: what the words of a command line do with a source and a sink.
#![tactic(auto)]

mod command;
mod commands;
mod continue_life;
mod cutting;
mod images;
mod input;
pub mod laws;
mod legal_life;
mod life_check;
mod reasons;
mod refusal;
mod run;
pub mod status;
mod usage;

pub use command::{
    Command, HELP, HelpWord, MOST_EVENTS, MOST_FIRST, MOST_PART, VERSION, reads_input,
};
pub use commands::{MOST_IMAGE, MOST_INPUT, MOST_WITH_REPORT, TeamRecord, tool};
pub use cutting::part;
pub use legal_life::{LeftFault, LifeCause, check_life, why_life};
pub use of_play::{commits, play_report, trace};
pub use of_serial::serial;
pub use refusal::Refusal;
pub use run::run_report;
