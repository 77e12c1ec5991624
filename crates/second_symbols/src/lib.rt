//! What the trees of the second form declare, item by item, and which names are the symbols of their units. All of it is in `specs/`.
#![tactic(auto)]
