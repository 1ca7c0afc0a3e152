#![tactic(auto)]

//! The queries over flat tables, of small graphs against plain walks over the parents of each commit; and how many look-ups a ladder takes
//! with levels and without.

#[cfg(test)]
mod asked;
#[cfg(test)]
mod compared;
#[cfg(test)]
mod draws;
#[cfg(test)]
mod edged;
#[cfg(test)]
mod edges;
#[cfg(test)]
mod graphs;
#[cfg(test)]
mod levels;
#[cfg(test)]
mod plain;
