// The control lines of a core, at most one for each key, in rows that are lent to it.
ghost use Rattle.std.specs.Prelude.{◌≡◌, Ok, if◌then◌else◌, length, is_ok, IfOk, IfErr};
ghost use Rattle.codes.specs.declared.refusal.Refusal.TheVariants.{Opening};
ghost use Rattle.codes.specs.Refusals.{refusal_number, refuse, numbered};
ghost use Rattle.control.specs.Keys.{key_for};
ghost use Rattle.control.specs.Lines.{Once, back_off_of, rows_fit};
ghost use Rattle.control.specs.Controls.{Empty, Setting, Clearing};

use crate::control_key::ControlKey;
use crate::control_numbers::ControlNumbers;
use crate::control_row::ControlRow;
use codes::{HandedBack, Refusal};
use std::marker::Model;
use tables::Table;

/// How many rows a table has at most.
pub const MAX_ROWS: usize = 64;

/// The control lines of a core, at most one for each key, in 1 to 64 rows that the host lends.
#[derive(Drop)]
pub struct ControlTable<'a> {
    table: Table<'a, ControlRow>,
}

// A contract sees a table as its rows.
impl<'a> Model for ControlTable<'a> {
    ghost use Rattle.std.specs.Prelude.{List};
    ghost use Rattle.control.specs.declared.control_row.ControlRow.{ControlRow};

    ghost Value = { List ControlRow };

    ghost view = { λ t. t.table.rows.now };
}

impl<'a> ControlTable<'a> {
    /// Whether a table can have so many rows: 1 to 64. Others are refused as out of bounds.
    pub fn check_rows(count: usize) -> Result<(), Refusal>
        ensures { numbered result ≡ (if rows_fit count then Ok tt else refuse Opening) }
    {
        if !(1..=MAX_ROWS).contains(&count) {
            return Err(Refusal::Opening);
        }
        Ok(())
    }

    /// A table with no lines, over 1 to 64 rows. Others are refused as out of bounds, and handed
    /// back as they were.
    #[tactic(auto, using(crate::proofs::Keyed::free_back_off, crate::proofs::Keyed::free_count))]
    pub fn new(
        rows: &'a mut [ControlRow],
    ) -> Result<ControlTable<'a>, HandedBack<&'a mut [ControlRow]>>
        ensures made { is_ok result ≡ rows_fit (length rows.old) }
        ensures size { IfOk result (λ t. length t ≡ length rows.old) }
        ensures empty { IfOk result Empty }
        ensures once { IfOk result Once }
        ensures refused { IfErr result (λ h. refusal_number h.refusal ≡ refusal_number Opening) }
        ensures handed_back { IfErr result (λ h. h.value ≡ rows.entry) }
    {
        if let Err(refusal) = ControlTable::check_rows(rows.len()) {
            return Err(HandedBack {
                refusal,
                value: rows,
            });
        }
        Ok(ControlTable {
            table: Table::new(rows),
        })
    }

    /// The back-off octet of the line of this key.
    #[tactic(auto, using(crate::proofs::Keyed::none_back_off, crate::proofs::Keyed::first_back_off))]
    pub fn back_off(&self, key: ControlKey) -> Option<u8>
        ensures value { result ≡ back_off_of self.now key }
        ensures once { Once self.now }
    {
        self.table.find(&key).and_then(|row| row.back_off())
    }

    /// A line of this key: in the place of the one that there is, or one more. A kind that is not 1
    /// to 3 is refused, and a new key where every row has a line; the table is then as it was.
    pub fn set(&mut self, numbers: ControlNumbers, back_off: u8) -> Result<(), Refusal>
        ensures set { Setting (key_for numbers) back_off self.old self.new result }
        ensures once { IfOk result (λ _. Once self.new) }
    {
        let key = ControlKey::try_from(numbers)?;
        self.table
            .set(ControlRow::of(key, back_off))
            .map_err(|_| Refusal::ControlFull)
    }

    /// Takes the line of this key out. A kind that is not 1 to 3 is refused, and a key with no line
    /// by the same refusal; the table is then as it was.
    #[tactic(auto, using(crate::proofs::Keyed::clear_done, crate::proofs::Keyed::clear_refused))]
    pub fn clear(&mut self, numbers: ControlNumbers) -> Result<(), Refusal>
        ensures cleared { Clearing (key_for numbers) self.old self.new result }
        ensures once { IfOk result (λ _. Once self.new) }
    {
        let key = ControlKey::try_from(numbers)?;
        if !self.table.remove(&key) {
            return Err(Refusal::ControlKind);
        }
        Ok(())
    }
}
