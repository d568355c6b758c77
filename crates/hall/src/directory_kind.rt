// The kinds of directories that a scenario can ask for.
ghost use Rattle.hall.specs.Kinds.{kind_word};

use crate::word::Worded;

#[derive(Clone, Copy)]
pub(crate) enum DirectoryKind {
    List,
    Turning,
}

impl DirectoryKind {
    pub(crate) const ALL: [DirectoryKind; 2] = [DirectoryKind::List, DirectoryKind::Turning];
}

impl Worded for DirectoryKind {
    ghost word = { kind_word };

    fn word(self) -> &'static str {
        match self {
            DirectoryKind::List => "list",
            DirectoryKind::Turning => "turning",
        }
    }
}
