#![tactic(auto)]

//! Commands from lines, and replies as lines.

mod command;
mod name_list;
mod put;
mod reply;
mod reply_line;
mod words;

pub use command::{Command, CommandFault, Verb};
pub use name_list::NameList;
pub use put::{put_disk_fault, put_names, put_reply, put_shrunk};
pub use reply::Reply;
