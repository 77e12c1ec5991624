//! The commands compile, link, run, show, exec and mean, up to their ends: what each does over files, an input and an output, and
//! the answer that it comes to. `specs/Does.antt` has each as the chain of its steps, `specs/Steps.antt` what a step may
//! answer and when, and `specs/Answers.antt` and `specs/Lines.antt` the status and the line of each answer.
#![tactic(auto)]

mod answer;
mod compiling;
mod files;
mod giving;
mod linking;
mod meaning;
mod performing;
mod running;
mod showing;
mod words;

pub use answer::{Answer, Status, SyntaxKind, TypingKind, UnitLimit};
pub use giving::give_all;
pub use performing::{compile, exec, link, mean, perform, run};
pub use showing::show;
pub use words::line;
