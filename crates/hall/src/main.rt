// Plays a scenario: one command a line on standard input, one line printed for each.
#![tactic(auto)]

mod call;
mod call_line;
mod change;
mod command;
mod directory;
mod directory_kind;
mod directory_state;
mod hall;
mod hall_router;
mod not_done;
mod opening;
mod outcome;
mod parse_call;
mod parse_change;
mod parse_note;
mod parse_opening;
mod play_error;
mod player;
mod stage;
mod ue_note;
mod used;
mod verb;
mod word;

use bumpalo::Bump;
use player::Player;
use playing::play_lines;
use stage::Stage;
use std::io::BufReader;

// Plays the whole text. The rows of control tables and of flat stores stand in `space`.
fn play_all<'a>(rt: &'a HostRuntime, space: &'a Bump) -> anyhow::Result<()> {
    let heap = rt.alloc();
    let mut input = BufReader::new(heap, rt.stdin())?;
    let Some(stage) = Stage::new(rt, space)? else {
        return Ok(());
    };
    let mut player = Player::new(stage);
    let played = play_lines(&mut player, heap, &mut input);
    player.end();
    Ok(played?)
}

fn main(rt: HostRuntime) -> anyhow::Result<()> {
    let space = Bump::new(rt.alloc());
    play_all(&rt, &space)
}
