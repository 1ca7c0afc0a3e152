#![tactic(auto)]

//! Plans of flushes onto a fresh log, as tables of cases, and tables of payloads of clones that are spelled out.

#[cfg(test)]
mod cloned_tables;
#[cfg(test)]
mod fresh;
