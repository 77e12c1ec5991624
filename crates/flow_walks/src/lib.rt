//! What is live in a graph, by walks, for every language whose nodes read and write: temporaries or other locations.
//!
//! `specs/Flows.antt` has what a node reads, writes and is followed by, and a routine of such nodes. `specs/Liveness.antt` says
//! which locations are live after a node, and which are live together; `specs/Lists.antt` what lists of live ones may be: exact,
//! closed and apart. `specs/laws/Cover.antt` has that closed lists hold all that is live, and that lists that are apart separate
//! what is live together; `specs/laws/Steps.antt` that what holds of all that is live is kept from node to node.
#![tactic(auto)]
