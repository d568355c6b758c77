// What there is while a scenario is played, besides the router that is open.
ghost use Rattle.std.specs.Prelude.{◌≡◌, None, is_some, length, min, IfOk, IfSome, IsSome};
ghost use Rattle.control.specs.Controls.{Empty};
ghost use Rattle.control.specs.Lines.{rows_fit};
ghost use Rattle.hall.specs.Asked.{wanted};
ghost use Rattle.hall.specs.Effects.{OutcomeFor};
ghost use Rattle.hall.specs.Ends.{outcome_of};
ghost use Rattle.hall.specs.Stages.{TableRenewed};

use crate::change::Change;
use crate::hall::Hall;
use crate::hall_router::HallRouter;
use crate::not_done::NotDone;
use crate::opening::Opening;
use bumpalo::Bump;
use control::{ControlRow, ControlTable};
use hosts::UeRegister;
use std::alloc::AllocError;

// How many rows the control table has where none was asked for.
const USUAL_ROWS: usize = 64;

#[derive(Drop)]
pub(crate) struct Stage<'a> {
    pub(crate) rt: &'a HostRuntime,
    // Where the rows of all control tables and flat stores stand, as one of them follows another.
    space: &'a Bump,
    pub(crate) hall: Hall,
    pub(crate) table: ControlTable<'a>,
    pub(crate) ues: UeRegister,
}

// An empty table; none for a number of rows that no table has.
fn make_table<'a>(space: &'a Bump, rows: usize) -> Result<Option<ControlTable<'a>>, AllocError>
    ensures made { IfOk result (λ o. is_some o ≡ rows_fit (min rows 64)) }
    ensures table { IfOk result (λ o. IfSome o (λ t. (length t ≡ min rows 64) × Empty t)) }
{
    let free = [ControlRow::free(); 64];
    let rows = space.try_alloc_slice_copy(&free[..rows.min(64)])?;
    let Ok(table) = ControlTable::new(rows) else {
        return Ok(None);
    };
    Ok(Some(table))
}

impl<'a> Stage<'a> {
    // Nothing but an empty control table of 64 rows.
    pub(crate) fn new(rt: &'a HostRuntime, space: &'a Bump) -> Result<Option<Stage<'a>>, AllocError>
        ensures made { IfOk result (λ o. IsSome o) }
        ensures rows { IfOk result (λ o. IfSome o (λ s. length s.table ≡ 64)) }
        ensures empty { IfOk result (λ o. IfSome o (λ s. Empty s.table)) }
    {
        let Some(table) = make_table(space, USUAL_ROWS)? else {
            return Ok(None);
        };
        Ok(Some(Stage {
            rt,
            space,
            hall: Hall::new(),
            table,
            ues: UeRegister::new(rt.alloc()),
        }))
    }

    // Does what a command asks for in the hall, where it can be done.
    pub(crate) fn apply(&mut self, change: &Change) -> Result<(), NotDone>
        ensures { IfSome (outcome_of result) (λ o.
            OutcomeFor self.old.hall.directory self.old.table (wanted change.now) o) }
    {
        self.hall.apply(self.rt.alloc(), &mut self.table, change)
    }

    // A new router, where it can be opened.
    pub(crate) fn open_router(&self, opening: Opening) -> Result<HallRouter<'a>, NotDone> {
        HallRouter::open(self.rt.alloc(), self.space, &self.hall, opening)
    }

    // Makes the control table that is wanted, if one is.
    pub(crate) fn renew_table(&mut self) -> Result<(), AllocError>
        ensures renewed { IfOk result (λ _. TableRenewed self.old self.new) }
        ensures left { IfOk result (λ _. self.new.hall.wanted_rows ≡ None) }
    {
        let Some(rows) = self.hall.take_wanted_rows() else {
            return Ok(());
        };
        if let Some(table) = make_table(self.space, rows)? {
            self.table = table;
        }
        Ok(())
    }
}
