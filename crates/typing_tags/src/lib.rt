//! The tags that the text of a unit names, in the order of the text: in declarations, casts and `sizeof` alike
//! (`specs/Tags.antt`). They are read off the tree before anything is typed, in time linear in it, so that a struct has one number
//! all over the unit.
#![tactic(auto)]

mod declarations;
mod expressions;
mod statements;
mod tag_list;

pub use declarations::tags;
pub use tag_list::TagList;
