//! What programs that run patterns share: options of their command lines and the values that these
//! give, the files that they read and write, their messages and their exit statuses, and a whole
//! program by its [`Application`].
#![tactic(auto)]

mod application;
mod entry;
mod growing_text;
mod input_file;
mod messages;
mod numbers;
mod options;
mod output_file;
mod reason;
mod stops;
mod system;
mod window_text;

pub use application::Application;
pub use entry::{asked, program};
pub use growing_text::GrowingText;
pub use input_file::InputFile;
pub use messages::tell_no_words;
pub use numbers::{Limits, copied, limits_asked, number_for, rule_asked, run_numbers};
pub use options::{
    command_with, file_argument, generation_option, long_option, node_option, number_option,
    rule_option, short_option, window_option, worker_option,
};
pub use output_file::OutputFile;
pub use reason::{Misfit, WordsFault, WordsReason};
pub use system::start;
pub use window_text::{WindowNumbers, window_numbers};
