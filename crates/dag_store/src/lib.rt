#![tactic(auto)]

//! Sixteen sessions over one log.

mod adding;
mod asks;
mod changing;
mod elsewhere;
mod finishing;
mod following;
mod indexing;
mod laws;
mod loading;
mod query;
mod replies;
mod store;
mod whole;

pub use asks::Ask;
pub use change_rules::{Limit, Limits};
pub use following::{FollowFault, Followed};
pub use high_segments::LevelCounts;
pub use laws::{logs_go_on, stores_stand};
pub use replies::{Changed, Counts, LoadFault};
pub use set_query::{Answer, Expr};
pub use step_rules::{Refusal, isolation_law};
pub use store::Store;
pub use store_queries::{Added, Found, Names};
pub use whole::{Segments, Whole};
