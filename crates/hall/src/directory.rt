// The directory that a scenario asked for.
ghost use Rattle.std.specs.Prelude.{◌≡◌, false, MatchResult};
ghost use Rattle.hall.specs.Effects.{refuses, NotAdded, SameLines, MoreLines};

use codes::SetupError;
use directories::{ListDirectory, ServiceLine, TurningDirectory};

// An enum and no `dyn Directory`, since `add` and `mark` are no calls of that trait.
#[derive(Drop)]
pub(crate) enum HallDirectory {
    List(ListDirectory),
    Turning(TurningDirectory),
}

impl HallDirectory {
    pub(crate) fn add(&mut self, line: ServiceLine) -> Result<(), SetupError>
        ensures lines { MatchResult result (λ _. MoreLines self.old line self.new)
            (λ _. SameLines self.old self.new) }
        ensures refused { MatchResult result (λ _. refuses self.old line ≡ false)
            (λ e. NotAdded (refuses self.old line) e) }
    {
        match self {
            HallDirectory::List(directory) => directory.add(line),
            HallDirectory::Turning(directory) => directory.add(line),
        }
    }
}
