#![tactic(auto)]

//! Bundles byte by byte, and what a bundle on a disk answers as a remote.

#[cfg(test)]
mod answers;
#[cfg(test)]
mod bundles;
#[cfg(test)]
mod digits;
