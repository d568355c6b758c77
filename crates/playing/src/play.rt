// The loop over the lines of a scenario.
use crate::line::without_feed;
use std::alloc::Global;
use std::io::{self, BufRead, BufReader, Stdin};

/// What plays a scenario, line by line.
pub trait LinePlayer {
    /// Why it stops before the text ends, which reading the text can be too.
    type Error: From<io::Error> + Drop;

    /// Does what the line of this number asks for, and prints what it answers.
    fn play_line(&mut self, number: u64, line: &[u8]) -> Result<(), Self::Error>;
}

/// Plays every line of the text, numbered from 1. The feed that ends a line is no part of it.
pub fn play_lines<P: LinePlayer>(
    player: &mut P,
    heap: Global,
    input: &mut BufReader<Stdin>,
) -> Result<(), P::Error> {
    // A loop has to end, so the lines are counted; their answers print the number.
    let mut line = Vec::new(heap);
    for number in 1..u64::MAX {
        line.clear();
        if input.read_until(b'\n', &mut line)? == 0 {
            break;
        }
        player.play_line(number, without_feed(line.as_slice()))?;
    }
    Ok(())
}
