//! What programs share that read an input, run the command of a word, and write its output: the engine over any reader
//! and any writers, the words of the command line, and the statuses.
//!
//! A program defines its commands by the trait [`Commands`]. The function [`engine`](engine::engine) runs the command
//! of a word; [`start`] does so on standard input or a file, and reports failures on standard error.
#![tactic(auto)]

pub mod engine;
pub mod fault_injection;
pub mod frames;
pub mod process;
pub mod report;
pub mod request;
pub mod status;
pub mod streams;
pub mod texts;
pub mod watched;

pub use engine::Commands;
pub use frames::{
    Ending, FrameCommand, FrameOutput, Next, StreamCommand, process_stream, process_whole,
    stop_line,
};
pub use process::{arguments, exit_code, run, start};
pub use request::{Request, command_word, input_path, parse_command};
pub use status::{ProgramFault, Status};
pub use texts::{process_texts, read_text};
