//! Images and their texts: what is left of a table when all but its durable words is lost.
#![tactic(auto)]

mod again;
mod error;
mod feed;
mod grammar;
mod law;
pub mod laws;
mod line;
mod migration;
mod parse;
mod parse_row;
mod printing;
mod reading;
mod reason;
mod refusal;
mod renumber;
mod restore;
mod version;
mod words;

pub use again::image_again;
pub use error::ImageErr;
pub use grammar::Limits;
pub use law::Law;
pub use migration::migrate;
pub use parse::{image_parse, image_parse_within, read};
pub use printing::{image_print, recovered_print};
pub use reason::Reason;
pub use refusal::{BadPiece, ImageFault, Refusal, fault};
pub use renumber::renumbered_print;
pub use version::Version;
pub use words::image_of_words;
