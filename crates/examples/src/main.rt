// Runs worked examples on routers, over both stores, and compares what is answered with what has to be.
#![tactic(auto)]

mod compare;
mod control_lines;
mod example;
mod foreign_tickets;
mod group;
mod host;
mod message;
mod openings;
mod refused_calls;
mod refused_messages;
mod refused_receives;
mod rules;
mod small_core;
mod tally;
mod tickets;
mod worked_rows;

use control_lines::run_control_lines;
use foreign_tickets::run_foreign_tickets;
use group::run_groups;
use openings::run_openings;
use refused_calls::REFUSED_CALLS;
use refused_messages::REFUSED_MESSAGES;
use refused_receives::{REFUSED_READ, REFUSED_UNREAD};
use rules::elsewhere::ELSEWHERE_RULES;
use rules::objections::OBJECTIONS;
use rules::standing::STANDING_RULES;
use rules::used::USED;
use tally::Tally;
use worked_rows::WORKED_ROWS;

fn run(rt: &HostRuntime) -> anyhow::Result<()> {
    let heap = rt.alloc();
    let mut tally = Tally::new(rt);
    run_groups(&mut tally, heap, &WORKED_ROWS)?;
    run_groups(&mut tally, heap, &REFUSED_UNREAD)?;
    run_groups(&mut tally, heap, &REFUSED_MESSAGES)?;
    run_groups(&mut tally, heap, &REFUSED_READ)?;
    run_openings(&mut tally, heap)?;
    run_foreign_tickets(&mut tally, heap)?;
    run_groups(&mut tally, heap, &REFUSED_CALLS)?;
    run_control_lines(&mut tally)?;
    for rules in [
        OBJECTIONS.as_slice(),
        &STANDING_RULES,
        &ELSEWHERE_RULES,
        &USED,
    ] {
        run_groups(&mut tally, heap, rules)?;
    }
    tally.print_total()?;
    Ok(())
}

fn main(rt: HostRuntime) -> anyhow::Result<()> {
    run(&rt)
}
