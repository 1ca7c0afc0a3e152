//! Rows of logs that are written anew: how long they become, what refuses them, and a stop or a fault at each call of the second disk.
#![tactic(auto)]

#[cfg(test)]
mod logs;
#[cfg(test)]
mod stops;
#[cfg(test)]
mod tests;
