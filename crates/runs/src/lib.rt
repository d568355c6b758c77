// The law over all runs of a router.
#![tactic(auto)]

ghost use Rattle.runs.specs.Laws.{Law};

// After every run, whatever its calls and their arguments: router and store agree with the account, which
// has one context at most for a UE and session; each payload is taken once, returned once or in flight, and
// its octets, handed out or sent back, are those received; a context stands exactly while it should; and
// each choice of a directory is right. It is called by nobody: it is there for its contract.
fn law_over_runs()
    ensures { Law }
{}
