//! The words of the command line, and the options and files that they ask for.
#![tactic(auto)]

mod asked_options;
mod command_line;
mod commands;
mod diff_defaults;
mod named_files;
mod selected_output;
mod settings;
mod shard_word;
mod table_size;
mod task_words;
mod tasks;

pub use command_line::{options, words_status};
pub use diff_defaults::diff_options;
pub use settings::{
    Asked, CaptureFile, Files, Interfaces, Lines, Options, Origin, Saved, ShardAsked, TableSize,
};
pub use task_words::{doubtful_word, known_command, task_of};
pub use tasks::{AskedPackets, CompareFiles, DiffFiles, Task};
