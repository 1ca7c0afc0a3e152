#![tactic(auto)]

//! What is stored and what is kept of it: each call of the log, the codecs, the sets, the names and the flat tables, against bytes,
//! lists and graphs that are written out; and what disks in memory leave, fail and note.

#[cfg(test)]
mod disks;
#[cfg(test)]
mod gated;
#[cfg(test)]
mod ids;
#[cfg(test)]
mod index;
#[cfg(test)]
mod lines;
#[cfg(test)]
mod names;
#[cfg(test)]
mod noted;
#[cfg(test)]
mod payloads;
#[cfg(test)]
mod records;
#[cfg(test)]
mod second_version;
#[cfg(test)]
mod spans;
#[cfg(test)]
mod tables;
