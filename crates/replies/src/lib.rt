//! What the program replies: a status and a text, and the replies that refuse.
#![tactic(auto)]

mod load_text;
pub mod refused;
mod reply;
mod row_lines;
mod stop;
mod task_lines;
mod verdicts;

pub use load_text::load_texts;
pub use reply::Reply;
pub use stop::Stop;
pub use verdicts::verdict_line;
