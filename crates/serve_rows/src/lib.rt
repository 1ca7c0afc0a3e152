#![tactic(auto)]

//! A mirror that is served: requests and their answers byte by byte, whole and in pieces, beside sources and sinks that fail.

#[cfg(test)]
mod chain;
#[cfg(test)]
mod digits;
#[cfg(test)]
mod faults;
#[cfg(test)]
mod serving;
