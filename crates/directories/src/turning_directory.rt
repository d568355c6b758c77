// The turning directory.
ghost use Rattle.std.specs.Prelude.{◌≡◌, ◌≤◌, true, [], vec_len, MatchOption, ◌≢◌};
ghost use Rattle.std.specs.List.{AllPass};
ghost use Rattle.directories.specs.Lines.{capacity};
ghost use Rattle.directories.specs.Additions.{Joining};
ghost use Rattle.directories.specs.Choices.{ChosenFor, Named, SameServing};
ghost use Rattle.directories.specs.SetLaws.{sets_lawful, turn_decides, turn_sole};
ghost use Rattle.directories.specs.Sets.{sets_serve, serve_wanted, NoPair, PairAt, Apart, good_set};
ghost use Rattle.directories.specs.Turns.{takes_next, Lowest, Next, InTurn};
ghost use Rattle.directories.specs.Turnings.{Turned, TwoServe};

use crate::directory::Directory;
use crate::limit::push_within_limit;
use crate::no_smf::NoSmf;
use crate::served_set::ServedSet;
use crate::service_line::ServiceLine;
use crate::takes_one::TakesOne;
use codes::{Refusal, SetupError, SliceDnn, SmfId};
use std::alloc::Global;

/// The turning directory: the SMFs that serve a slice and a DNN take turns, the next ID above the
/// last one first, and then round. It holds up to 64 pairs of a slice and an SMF, each with its
/// DNNs, and is open or closed.
#[derive(Drop)]
pub struct TurningDirectory {
    // One for each slice and SMF. A list and no map by the two: a choice goes over all, and `add`
    // alone looks for one.
    sets: Vec<ServedSet>,
    // The ID that was chosen last, above which the next is looked for; 0 at first, so that an
    // `Option` would be read as 0.
    last: SmfId,
    is_open: bool,
    ghost few: { vec_len sets ≤ capacity },
    ghost apart: { Apart sets.items },
    ghost good: { AllPass good_set sets.items },
}

impl TurningDirectory {
    /// Open, and with no pairs.
    pub fn new(heap: Global) -> TurningDirectory
        ensures sets { result.sets.items ≡ [] }
        ensures last { result.last ≡ 0 }
        ensures opening { result.is_open ≡ true }
    {
        TurningDirectory {
            sets: Vec::new(heap),
            last: 0,
            is_open: true,
        }
    }

    /// The line's SMF serves its slice and DNN too, which it may do already. All is checked before
    /// any memory is asked for: a line with a DNN number that is not 1 to 64 or with SMF ID 0 is
    /// refused, and a 65th pair of a slice and an SMF. On an error all is as it was.
    #[tactic(auto, using(crate::proofs::Joins::joined_by))]
    pub fn add(&mut self, line: ServiceLine) -> Result<(), SetupError>
        ensures sets { Joining self.old.sets.items line self.new.sets.items result }
        ensures opening { self.new.is_open ≡ self.old.is_open }
        ensures last { self.new.last ≡ self.old.last }
    {
        if !line.is_good() {
            return Err(Refusal::Opening.into());
        }
        match self.place_of(line) {
            Some(i) => {
                self.sets[i].add(line.dnn);
                Ok(())
            }
            None => push_within_limit(&mut self.sets, ServedSet::of(line)),
        }
    }

    // Where the set of the line's slice and SMF is.
    fn place_of(&self, line: ServiceLine) -> Option<usize>
        ensures { let sets = self.now.sets.items in
            MatchOption result (NoPair sets line.slice line.smf) (PairAt sets line.slice line.smf) }
    {
        self.sets.iter().position(|set| set.is_of(line))
    }

    /// Opens or closes it. Who serves, and whose turn is next, stays.
    pub fn mark(&mut self, open: bool)
        ensures opening { self.new.is_open ≡ «open» }
        ensures last { self.new.last ≡ self.old.last }
        ensures sets { self.new.sets.items ≡ self.old.sets.items }
    {
        self.is_open = open;
    }

    // The lowest ID above the bound that serves the slice and DNN.
    fn lowest_above(&self, wanted: SliceDnn, bound: SmfId) -> Option<SmfId>
        ensures { Lowest (serve_wanted self.now.sets.items wanted) bound result }
    {
        self.sets
            .iter()
            // The set's slice first: most sets are of another.
            .filter(|set| set.is_for(wanted) && set.smf > bound)
            .map(|set| set.smf)
            .min()
    }

    // The ID that comes next after the last one, going round.
    #[tactic(auto, using(crate::proofs::Rounds::next_by))]
    fn next_in_turn(&self, wanted: SliceDnn) -> Option<SmfId>
        ensures { Next (serve_wanted self.now.sets.items wanted) self.now.last result }
    {
        self.lowest_above(wanted, self.last)
            .or_else(|| self.lowest_above(wanted, 0))
    }
}

impl Directory for TurningDirectory {
    ghost opened = { λ d. d.is_open };

    ghost serves = { λ d s n m. sets_serve d.sets.items s n m };

    ghost takes = { λ d s n m. takes_next d.sets.items d.last s n m };

    ghost turned = { λ d s n r e. Turned (sets_serve d.sets.items s n) d.last e.last r };

    #[tactic(auto, using(crate::specs::SetLaws::turn_to, crate::proofs::Rounds::differs_by))]
    fn choose(&mut self, wanted: SliceDnn) -> Result<SmfId, NoSmf>
        ensures choice { let sets = self.old.sets.items in
            ChosenFor self.old.is_open (sets_serve sets) (takes_next sets self.old.last) wanted result }
        ensures named { Named wanted result }
        ensures opening { self.new.is_open ≡ self.old.is_open }
        ensures serving { SameServing (sets_serve self.old.sets.items) (sets_serve self.new.sets.items) }
        ensures turn { Turned (serve_wanted self.old.sets.items wanted) self.old.last self.new.last result }
        // where two serve, the one that was chosen last is not chosen again: two choices in a row
        // differ
        ensures differs { TwoServe (serve_wanted self.old.sets.items wanted) → result ≢ Ok self.old.last }
        ensures same { self.new.sets.items ≡ self.old.sets.items }
    {
        if !self.is_open {
            return Err(NoSmf::Closed);
        }
        let smf = self.next_in_turn(wanted).ok_or(NoSmf::NoneServes)?;
        self.last = smf;
        Ok(smf)
    }

    ghost lawful = { λ d. sets_lawful d.sets.items d.last d.good };
}

impl TakesOne for TurningDirectory {
    ghost means = { λ d s n m. InTurn (sets_serve d.sets.items s n) d.last m };

    ghost meaning = { λ d. turn_decides d.sets.items d.last };

    ghost sole = { λ d. turn_sole d.sets.items d.last };
}
