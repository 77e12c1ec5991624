//! What linked units of the source come to over a source and a sink, exactly as `clight_sem` defines it: the call `mean`.
#![tactic(auto)]

mod meaning;

pub use mean_run::MeanEnd;
pub use meaning::{MeanFault, mean, mean_in};
