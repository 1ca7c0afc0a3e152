#![tactic(auto)]

//! Expressions with their answers over graphs of a few commits. Each is asked of plain rows, of flat tables, of tables that are
//! cut inside a segment, of tables with levels, and of the program, by lines that add the same rows.

#[cfg(test)]
mod cases;
#[cfg(test)]
mod lines;
#[cfg(test)]
mod names;
#[cfg(test)]
mod rows;
#[cfg(test)]
mod tables;
#[cfg(test)]
mod tests;
