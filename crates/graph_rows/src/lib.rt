#![tactic(auto)]

//! Worlds, expressions, placings and lists of waiting ids, against tables of small graphs and texts.

#[cfg(test)]
mod answers;
#[cfg(test)]
mod histories;
#[cfg(test)]
mod order;
#[cfg(test)]
mod texts;
#[cfg(test)]
mod waiting;
#[cfg(test)]
mod worlds;
