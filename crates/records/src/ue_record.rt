// UE records.
ghost use Rattle.std.specs.Prelude.{◌≡◌, length, Ok, if◌then◌else◌};
ghost use Rattle.codes.specs.declared.refusal.Refusal.TheVariants.{RecordBounds};
ghost use Rattle.codes.specs.Refusals.{numbered, refuse};
ghost use Rattle.records.specs.Records.{plain, record_fits, subscription_fits, known_fits};
ghost use Rattle.records.specs.Firsts.{default_slice, default_dnn, allows, known_session, known_dnn};
ghost use Rattle.std.specs.List.{list_all};

use crate::known_line::KnownLine;
use crate::numbering::has_number;
use crate::subscription_line::SubscriptionLine;
use codes::{DnnNumber, Refusal, SessionId, SliceCode, SmfId, UeNumber};
use names::Book;

/// What a host tells of a UE with each of its messages.
#[derive(Clone, Copy)]
pub struct UeRecord<'a> {
    /// At least 1.
    pub number: UeNumber,
    pub high_priority: bool,
    /// A mobility registration of the UE is awaited.
    pub awaits_registration: bool,
    /// The most PDU sessions that it may have, 1 to 15.
    pub session_limit: u8,
    /// Up to 32.
    pub subscriptions: &'a [SubscriptionLine],
    /// Up to 15.
    pub known: &'a [KnownLine],
}

fn are_subscriptions(lines: &[SubscriptionLine], book: &Book) -> bool
    ensures { result ≡ list_all (subscription_fits (length book.now)) lines.now }
{
    lines.iter().all(|line| has_number(book, line.dnn))
}

fn are_known(lines: &[KnownLine], book: &Book) -> bool
    ensures { result ≡ list_all (known_fits (length book.now)) lines.now }
{
    lines.iter().all(|line| line.is_in_bounds(book))
}

impl<'a> UeRecord<'a> {
    // Whether its numbers and lines are in bounds. Their DNN numbers have to be the book's.
    fn is_in_bounds(&self, book: &Book) -> bool
        ensures { result ≡ record_fits (length book.now) (plain self.now) }
    {
        self.number > 0
            && (1..=15).contains(&self.session_limit)
            && self.subscriptions.len() <= 32
            && self.known.len() <= 15
            && are_subscriptions(self.subscriptions, book)
            && are_known(self.known, book)
    }

    /// Refuses a record that is out of bounds: a number or a line that is, too many lines, or a DNN
    /// that is not in the book.
    pub fn check(&self, book: &Book) -> Result<(), Refusal>
        ensures { numbered result ≡
            (if record_fits (length book.now) (plain self.now) then Ok tt else refuse RecordBounds) }
    {
        if !self.is_in_bounds(book) {
            return Err(Refusal::RecordBounds);
        }
        Ok(())
    }

    /// The slice to be used where a message names none: that of the first default-slice line.
    pub fn default_slice(&self) -> Option<SliceCode>
        ensures { result ≡ default_slice (plain self.now) }
    {
        self.subscriptions
            .iter()
            .find(|line| line.default_slice)
            .map(|line| line.slice)
    }

    /// The DNN to be used in a slice where a message names none: that of the slice's first
    /// default-DNN line.
    pub fn default_dnn(&self, slice: SliceCode) -> Option<DnnNumber>
        ensures { result ≡ default_dnn (plain self.now) slice }
    {
        self.subscriptions
            .iter()
            .find(|line| line.default_dnn && line.slice == slice)
            .map(|line| line.dnn)
    }

    /// Whether a PDU session of this slice may be moved here.
    pub fn allows(&self, slice: SliceCode) -> bool
        ensures { result ≡ allows (plain self.now) slice }
    {
        self.subscriptions
            .iter()
            .any(|line| line.allowed && line.slice == slice)
    }

    /// The SMF of the first known line of a session.
    pub fn known_session(&self, session: SessionId) -> Option<SmfId>
        ensures { result ≡ known_session (plain self.now) session }
    {
        self.known
            .iter()
            .find(|line| line.session == session)
            .map(|line| line.smf)
    }

    /// The SMF of the first known line of a DNN.
    pub fn known_dnn(&self, dnn: DnnNumber) -> Option<SmfId>
        ensures { result ≡ known_dnn (plain self.now) dnn }
    {
        self.known
            .iter()
            .find(|line| line.dnn == dnn)
            .map(|line| line.smf)
    }
}
