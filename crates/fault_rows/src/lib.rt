#![tactic(auto)]

//! What runs of command lines don't show (run_rows): the program's words and modes, over disks and sinks that fail, and look-ups, which no
//! reply tells.

#[cfg(test)]
mod bundled;
#[cfg(test)]
mod compacted;
#[cfg(test)]
mod look_ups;
#[cfg(test)]
mod modes;
