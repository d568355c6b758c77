// A small core, and ten cases in it.
ghost use Rattle.accounts.specs.TenCases.{TenCases};

// What the definitions of reading, checking, judging, keeping account and returning make of them, by
// computation. It is called by nobody: it is there for its contract.
fn ten_cases()
    ensures { TenCases }
{}
