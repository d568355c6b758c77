// The list directory.
ghost use Rattle.std.specs.Prelude.{◌≡◌, ◌≤◌, true, [], vec_len};
ghost use Rattle.std.specs.List.{AllPass};
ghost use Rattle.directories.specs.Additions.{Adding};
ghost use Rattle.directories.specs.Choices.{ChosenFor, Named, SameServing};
ghost use Rattle.directories.specs.Lines.{capacity, good_line, lines_serve, takes_first, FirstSmf};
ghost use Rattle.directories.specs.LineLaws.{lines_lawful, takes_decides, first_sole};
ghost use Rattle.directories.specs.Takings.{TakenFirst};

use crate::directory::Directory;
use crate::limit::push_within_limit;
use crate::no_smf::NoSmf;
use crate::service_line::ServiceLine;
use crate::takes_one::TakesOne;
use codes::{Refusal, SetupError, SliceDnn, SmfId};
use std::alloc::Global;

/// The list directory: up to 64 lines, of which the first that serves is taken. It is always open.
#[derive(Drop)]
pub struct ListDirectory {
    lines: Vec<ServiceLine>,
    ghost few: { vec_len lines ≤ capacity },
    ghost good: { AllPass good_line lines.items },
}

impl ListDirectory {
    /// No lines.
    pub fn new(heap: Global) -> ListDirectory
        ensures { result.lines.items ≡ [] }
    {
        ListDirectory {
            lines: Vec::new(heap),
        }
    }

    /// One more line, behind the others, which may stand there already. It is checked before any
    /// memory is asked for: a line with a DNN number that is not 1 to 64 or with SMF ID 0 is
    /// refused, and a 65th line. On an error all is as it was.
    pub fn add(&mut self, line: ServiceLine) -> Result<(), SetupError>
        ensures { Adding self.old.lines.items line self.new.lines.items result }
    {
        if !line.is_good() {
            return Err(Refusal::Opening.into());
        }
        push_within_limit(&mut self.lines, line)
    }
}

impl Directory for ListDirectory {
    ghost opened = { λ d. true };

    ghost serves = { λ d s n m. lines_serve d.lines.items s n m };

    ghost takes = { λ d s n m. takes_first d.lines.items s n m };

    ghost turned = { λ d s n r e. e.lines.items ≡ d.lines.items };

    #[tactic(auto, using(crate::proofs::Firsts::first_chosen, crate::proofs::Firsts::first_named))]
    fn choose(&mut self, wanted: SliceDnn) -> Result<SmfId, NoSmf>
        ensures choice { let lines = self.old.lines.items in
            ChosenFor true (lines_serve lines) (takes_first lines) wanted result }
        ensures named { Named wanted result }
        ensures opening { true ≡ true }
        ensures serving { SameServing (lines_serve self.old.lines.items) (lines_serve self.new.lines.items) }
        ensures first { TakenFirst self.old.lines.items wanted.slice wanted.dnn result }
        ensures turn { self.new.lines.items ≡ self.old.lines.items }
    {
        self.lines
            .iter()
            .find(|line| line.is_for(wanted))
            .map(|line| line.smf)
            .ok_or(NoSmf::NoneServes)
    }

    ghost lawful = { λ d. lines_lawful d.lines.items d.good };
}

impl TakesOne for ListDirectory {
    ghost means = { λ d s n m. FirstSmf d.lines.items s n m };

    ghost meaning = { λ d. takes_decides d.lines.items };

    ghost sole = { λ d. first_sole d.lines.items };
}
