#![tactic(auto)]

//! The answers of expressions over a table of segments.

mod evaluation;
mod forms;
mod laws;
mod pairs;
mod unions;

pub use evaluation::{Answer, eval};
pub use laws::{answers_spelled_out, tables_are_closed};
pub use set_expr::{Expr, ExprFault};
