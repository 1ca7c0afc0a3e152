#![tactic(auto)]

//! Lines that are read as commands or aren't, and the texts of replies.

#[cfg(test)]
mod tests;
