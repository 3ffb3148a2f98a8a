// What lies between two chips that move cycle by cycle, each at its own stamp: the stamps and the book of changes.
#![tactic(auto)]

pub mod book;
pub mod stamp;
