// The reader of job lists: check's answer, and the tables of an accepted list.
#![tactic(auto)]

mod reader;
mod rows;

pub use reader::{check, read};
