//! The part of `pimlab` that needs no router: its command line, the scenario file as plain data, and the one line with
//! the status that reports what went wrong.
#![tactic(auto)]

pub mod command_line;
pub mod complaint;
pub mod file;
pub mod scenario;

pub use command_line::{Answer, Command, Tables, WireKind, Words, read_words};
pub use complaint::{Complaint, ScenarioRefusal, fault, refused};
pub use file::load;
pub use scenario::{
    BsrText, ConfigText, FrontText, Link, RouterText, RpText, Scenario, ScenarioMove, StandingText,
    read_scenario,
};
