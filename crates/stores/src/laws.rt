// What holds of every store, whatever its make.
ghost use Rattle.stores.specs.Finding.{Law};

// What is put is found, what is removed is not, other sessions stay as they were, and below the floor
// there is room. It is called by nobody: it is there for its contract.
#[tactic(auto, using(crate::proofs::Finding::law))]
fn law_of_stores()
    ensures { Law }
{}
