// What was compared, and what differs.
use std::io;

#[derive(Drop)]
pub(crate) struct Tally<'a> {
    pub(crate) rt: &'a HostRuntime,
    // What runs now, and over which store.
    example: &'static str,
    store: &'static str,
    // The call of the example, from 1.
    call: usize,
    // Those of this group, and those of the groups before it.
    runs: usize,
    all_runs: usize,
    differences: usize,
}

impl<'a> Tally<'a> {
    pub(crate) fn new(rt: &'a HostRuntime) -> Tally<'a> {
        Tally {
            rt,
            example: "",
            store: "",
            call: 0,
            runs: 0,
            all_runs: 0,
            differences: 0,
        }
    }

    // The next comparisons are those of this example.
    pub(crate) fn begin(&mut self, example: &'static str, store: &'static str) {
        self.example = example;
        self.store = store;
        self.call = 0;
        self.runs = self.runs.saturating_add(1);
    }

    // They are those of the example's next call.
    pub(crate) fn next_call(&mut self) {
        self.call = self.call.saturating_add(1);
    }

    // Prints what differs. A line that cannot be printed is counted all the same.
    pub(crate) fn compare(&mut self, what: &'static str, same: bool) {
        if same {
            return;
        }
        self.differences = self.differences.saturating_add(1);
        let (example, store, call) = (self.example, self.store, self.call);
        let _ = println!(self.rt; "FAILED {example}, {store}, call {call}: {what}");
    }

    // The line of a group, with how often its examples ran.
    pub(crate) fn print(&mut self, line: &str) -> io::Result<()> {
        let runs = self.runs;
        self.all_runs = self.all_runs.saturating_add(runs);
        self.runs = 0;
        println!(self.rt; "{line} [runs: {runs}]")
    }

    pub(crate) fn print_total(&self) -> io::Result<()> {
        let (runs, differences) = (self.all_runs, self.differences);
        println!(self.rt; "runs: {runs}, differences: {differences}")
    }
}
