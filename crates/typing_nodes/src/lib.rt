//! The nodes of a unit's tree (`specs/Nodes.antt`), which are limited to 65,536 and bound the size of the code that is made of
//! them. Each count is told up to 65,537.
#![tactic(auto)]

mod counts;
mod declarations;
mod expressions;
mod statements;

pub use counts::{MOST, together};
pub use declarations::{external_nodes, function_nodes, object_nodes, unit_nodes};
pub use expressions::expr_nodes;
pub use statements::stmt_nodes;
