//! What the program asks of the operating system: it opens the files that the words name, reads and writes them, saves
//! packets, shows progress, and says on standard error what there is to say.
#![tactic(auto)]

mod asked_words;
mod capture_feeding;
mod closed_streams;
mod coming_captures;
mod command_words;
mod diff_input;
mod draft;
mod end_of_run;
mod expecting_input;
mod file_checking;
mod file_expanding;
mod input_files;
mod interface_capture;
mod interface_files;
mod live_files;
mod merged_files;
mod named_place;
mod named_reader;
mod output;
mod progress;
mod save_file;
mod saved_names;
mod say_and_answer_status;
mod say_policy_remarks;
mod say_wrong_policy;
mod system_files;

pub use asked_words::Words;
pub use closed_streams::hold_closed_streams;
pub use coming_captures::{ComingCaptures, LiveInterfaces, opened_live_interfaces};
pub use command_words::{asked_or_status, mistyped_status, texts_of};
pub use diff_input::{DiffInput, opened_diff, say_capture_fault};
pub use end_of_run::{
    Ran, SeenFiles, say_end_of_files, say_end_of_interfaces, say_end_of_live,
    say_end_of_live_interfaces, say_outcome,
};
pub use expecting_input::{ExpectingInput, opened_expecting, say_wrong_expectations};
pub use file_checking::check_file;
pub use file_expanding::expand_file;
pub use input_files::{policy_text, standard_source};
pub use interface_files::read_interface_input;
pub use live_files::{LiveFiles, live_policy_text, opened_live};
pub use named_reader::Reader;
pub use output::Output;
pub use progress::{Progress, Watched, watched_where};
pub use save_file::{SaveFile, saves_to, say_unsaved, settled};
pub use saved_names::{say_read_twice, say_used_twice};
pub use say_and_answer_status::failure_status;
pub use say_wrong_policy::{NamedPolicy, say_policy_fault};
pub use system_files::SystemFiles;
