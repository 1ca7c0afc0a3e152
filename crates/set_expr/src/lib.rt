#![tactic(auto)]

//! Expressions over sets of commits: their trees, spelling and meaning, and the parser.

mod expr;
mod forms;
mod laws;
mod parse;
mod tree;
mod words;

pub use expr::Expr;
pub use laws::{
    answers_computed, answers_renamed, expressions_spelled_out, ids_for_names, one_answer,
    one_expression, worlds_are_closed,
};
pub use parse::ExprFault;
pub use tree::Tree;
pub use words::{Call, PairCall, Word};
