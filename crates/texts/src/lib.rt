// Sealed texts on typed arrays: a body of 12 bytes to a text of 15 under the core's key, and back.
#![tactic(auto)]

mod forms;
mod text;
mod text_core;

pub use forms::{body_of, input_of};
pub use text::{Flag, Opened, flag_of, key10, key16, open_text, seal_body};
pub use text_core::{seal_core, seal_core_x4, with8};
