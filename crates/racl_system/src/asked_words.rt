//! What the program's words ask for, as a type.
use racl_options::{Asked, Task};

/// What the words ask for: a run, or what a command does.
#[derive(Drop)]
pub enum Words<'a> {
    Run(Asked<'a>),
    Command(Task<'a>),
}
