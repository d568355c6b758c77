// What playing a scenario takes besides its commands: the words of a line, the command `read` and its
// reply, and the loop over the lines.
#![tactic(auto)]

mod line;
mod play;
mod read;

pub use line::{error_line, line_words, without_feed};
pub use play::{LinePlayer, play_lines};
pub use read::{ReadReply, read_line, read_operand};
