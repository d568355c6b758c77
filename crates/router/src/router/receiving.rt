// What a receive does.
ghost use Rattle.std.specs.Prelude.{◌≡◌, ℕ, [], ◌≤◌, ◌<◌, List, OnErr, is_some, ◌+◌, length, IfOk, None, Ok, true, false};
ghost use Rattle.accounts.specs.Receives.{pool_length, most_flights, last_number, case_on, reserved, returned_with};
ghost use Rattle.flights.specs.Slots.{at, in_hand};
ghost use Rattle.flights.specs.declared.flight.Mark.TheVariants.{InHand};
ghost use Rattle.nas.specs.Returns.{return_overhead};
ghost use Rattle.nas.specs.Uplinks.{in_range, read};
ghost use Rattle.nas.specs.Uplinks as uplinks;
ghost use Rattle.nas.specs.Views.{decoded, seen};
ghost use Rattle.records.specs.Records.{plain, record_fits};
ghost use Rattle.router.specs.Fits.{flight_fits};
ghost use Rattle.router.specs.Receiving.{Admitted, admitted_message, received_of, Fitting};
ghost use Rattle.router.specs.Receiving.{asks, judged_by, verdict_for, ChoseRightly, PutFits};
ghost use Rattle.router.specs.Receiving.{heard, ticket_in, told, written_to, AcceptedWith, answer_for};
ghost use Rattle.router.specs.Receiving.{DoesReceive, IsOpen, OutputAfter, DirectoryAfter};
ghost use Rattle.router.specs.Views.{core, model, contexts_of, OnlyFlights};
ghost use Rattle.runs.specs.Calls.{Delivered, flight_of, PlacedIn};
ghost use Rattle.runs.specs.Models.{state, slot_length};
ghost use Rattle.verdicts.specs.Judgements.{ConsultedFor, JudgedBy};
ghost use Rattle.verdicts.specs.Verdicts.{smf_of};

use super::Router;
use crate::admission::Admission;
use crate::answer::{Answer, Delivery};
use crate::pool::{POOL_LENGTH, fill_slot};
use crate::reading::read_fitting;
use crate::returning::return_payload;
use crate::settling::settle;
use crate::ticket::Ticket;
use accounts::inquiry;
use codes::{Refusal, UeNumber};
use control::ControlTable;
use directories::Directory;
use flights::Flight;
use nas::{RETURN_OVERHEAD, Uplink};
use records::UeRecord;
use stores::{PduSession, Store};
use verdicts::{Decision, Verdict, judge};

impl<S: Store> Router<S> {
    // The next number and a free slot for a session that has no payload in flight. Nothing is
    // changed yet.
    fn reserve(&self, session: PduSession) -> Result<(u32, usize), Refusal>
        ensures value { (x : uplinks.Message) →
            seen (λ _. x) result ≡ reserved (state (model self.now [])) session.ue session.id x }
        ensures number { IfOk result (λ r. r.0 ≡ self.now.next) }
        ensures slot { IfOk result (λ r. (r.1 < most_flights) × (at self.now.flights.slots r.1 ≡ None)) }
        ensures room { IfOk result (λ r. S.Store.room self.now.store session.ue session.id ≡ true) }
        ensures next { IfOk result (λ r. self.now.next ≤ last_number) }
    {
        if self.flights.has(session) {
            return Err(Refusal::PairInFlight);
        }
        let slot = self.flights.free_slot().ok_or(Refusal::FlightsFull)?;
        if !self.store.has_room(session) {
            return Err(Refusal::NoRoom);
        }
        let number = u32::try_from(self.next).or(Err(Refusal::NumbersSpent))?;
        Ok((number, slot))
    }

    // The message, if it is accepted.
    fn admit<'m>(
        &self,
        ue: UeRecord<'_>,
        pool: &[u8],
        output: &[u8],
        message: &'m [u8],
    ) -> Result<Admission<'m>, Refusal>
        ensures value { admitted_message result
            ≡ received_of (model self.now pool.now) (plain ue.entry) output.now message.now }
        ensures reads { IfOk result (λ a. read message.now ≡ Ok (decoded a.uplink)) }
        ensures admitted { IfOk result (Admitted (model self.now pool.now) (plain ue.entry) output.now) }
    {
        ue.check(&self.book)?;
        if pool.len() != POOL_LENGTH {
            return Err(Refusal::PoolLength);
        }
        let uplink = read_fitting(message)?;
        if output.len() < uplink.payload.len() + RETURN_OVERHEAD {
            return Err(Refusal::OutputLength);
        }
        let session = PduSession {
            ue: ue.number,
            id: uplink.session,
        };
        let (number, slot) = self.reserve(session)?;
        Ok(Admission {
            uplink,
            number,
            slot,
        })
    }

    // The verdict on a message that is accepted.
    fn judge<D: Directory>(
        &self,
        uplink: &Uplink<'_>,
        ue: UeRecord<'_>,
        controls: &ControlTable<'_>,
        directory: &mut D,
    ) -> Verdict
        ensures judged { let r = judged_by D.Directory ue.entry controls.now directory.old in
            let c = case_on (core self.now) (contexts_of self.now) r (decoded uplink.now) in
            JudgedBy D.Directory c directory.old result }
        ensures directory { let r = judged_by D.Directory ue.entry controls.now directory.old in
            let asked = asks (model self.now []) r (Ok (decoded uplink.now)) in
            ConsultedFor D.Directory asked result directory.old directory.new }
    {
        let inquiry = inquiry(uplink, ue, self.configuration, &self.book);
        judge(&inquiry, &self.store, controls, directory)
    }

    // The same, in the words of a receive.
    fn decide<D: Directory>(
        &self,
        uplink: &Uplink<'_>,
        ue: UeRecord<'_>,
        controls: &ControlTable<'_>,
        directory: &mut D,
    ) -> Verdict
        requires ue_in { record_fits (length (core self.now).names) (plain ue) ≡ true }
        requires session { in_range uplink.now.session ≡ true }
        ensures value { let r = judged_by D.Directory ue.entry controls.now directory.old in
            result ≡ verdict_for (model self.now []) r result (decoded uplink.now) }
        ensures choice { let r = judged_by D.Directory ue.entry controls.now directory.old in
            ChoseRightly (model self.now []) r result (decoded uplink.now) }
        ensures directory { let r = judged_by D.Directory ue.entry controls.now directory.old in
            let asked = asks (model self.now []) r (Ok (decoded uplink.now)) in
            ConsultedFor D.Directory asked result directory.old directory.new }
        ensures bounded { PutFits result ue.entry.number uplink.now.session }
    {
        self.judge(uplink, ue, controls, directory)
    }

    // The payload stands in the free slot, and its flight with it.
    #[tactic(auto, using(crate::proofs::Tickets::opened))]
    fn place(&mut self, pool: &mut [u8], slot: usize, payload: &[u8], flight: Flight) -> Ticket
        requires whole { length pool.old ≡ pool_length }
        requires slot { slot < most_flights }
        requires free { at self.old.flights.slots slot ≡ None }
        requires payload { length payload.now ≤ slot_length }
        requires fits { flight_fits flight ≡ true }
        requires in_hand { flight.mark ≡ InHand }
        ensures placed { PlacedIn result.slot flight payload.now
            (model self.old pool.old) (model self.new pool.new) }
        ensures number { result.number ≡ flight.number }
        ensures in_hand { is_some (in_hand self.new.flights.slots flight.number result.slot) ≡ true }
        ensures same { OnlyFlights self.old self.new }
    {
        fill_slot(pool, slot, payload);
        self.flights.open(slot, flight);
        Ticket {
            number: flight.number,
            slot,
        }
    }

    // Where a message that is accepted goes: into its slot, or to the output.
    fn deliver(
        &mut self,
        pool: &mut [u8],
        output: &mut [u8],
        admission: &Admission<'_>,
        ue: UeNumber,
        verdict: Verdict,
    ) -> Delivery
        requires whole { length pool.old ≡ pool_length }
        requires slot { admission.now.slot < most_flights }
        requires fitting { Fitting admission.now.uplink }
        requires output { length admission.now.uplink.payload.now + return_overhead ≤ length output.old }
        requires free { at self.old.flights.slots admission.now.slot ≡ None }
        ensures delivered { let x = decoded admission.now.uplink in
            let flight = flight_of admission.now.number ue x verdict in
            Delivered flight x.payload (smf_of verdict.decision) (ticket_in result)
            (model self.old pool.old) (model self.new pool.new) }
        ensures octets { written_to output.new result
            ≡ returned_with (decoded admission.now.uplink) verdict.decision }
        ensures output { OutputAfter output.old output.new result }
        ensures ticket { IsOpen (model self.new pool.new) result }
        ensures same { OnlyFlights self.old self.new }
    {
        let uplink = admission.uplink;
        match verdict.decision {
            Decision::Forward(_) => Delivery::Forwarded(self.place(
                pool,
                admission.slot,
                uplink.payload,
                admission.flight(ue, false),
            )),
            Decision::Establish { .. } => {
                Delivery::Forwarded(self.place(
                    pool,
                    admission.slot,
                    uplink.payload,
                    admission.flight(ue, true),
                ))
            }
            Decision::Return(cause) => {
                let Ok(length) = return_payload(output, uplink.payload, uplink.session, cause)
                else {
                    unreachable!()
                };
                Delivery::Returned { length }
            }
        }
    }

    // What a message that passed all checks comes to.
    fn handle<D: Directory>(
        &mut self,
        admission: &Admission<'_>,
        ue: UeRecord<'_>,
        controls: &ControlTable<'_>,
        directory: &mut D,
        pool: &mut [u8],
        output: &mut [u8],
    ) -> Answer
        requires admitted { Admitted (model self.old pool.old) (plain ue) output.old admission.now }
        ensures accepted { (octets : List ℕ) →
            let r = heard D.Directory ue.entry controls.now directory.old pool.old output.old octets in
            AcceptedWith (model self.old pool.old) r (decoded admission.now.uplink) result
            (model self.new pool.new) }
        ensures answer { (octets : List ℕ) →
            let r = heard D.Directory ue.entry controls.now directory.old pool.old output.old octets in
            told output.new result
            ≡ answer_for (model self.old pool.old) r result.verdict (decoded admission.now.uplink) }
        ensures output { OutputAfter output.old output.new result.delivery }
        ensures ticket { IsOpen (model self.new pool.new) result.delivery }
        ensures directory { let r = judged_by D.Directory ue.entry controls.now directory.old in
            let asked = asks (model self.old pool.old) r (Ok (decoded admission.now.uplink)) in
            ConsultedFor D.Directory asked result.verdict directory.old directory.new }
    {
        let uplink = &admission.uplink;
        let verdict = self.decide(uplink, ue, controls, directory);
        let session = PduSession {
            ue: ue.number,
            id: uplink.session,
        };
        settle(&mut self.store, session, verdict);
        let delivery = self.deliver(pool, output, admission, ue.number, verdict);
        self.next += 1;
        Answer {
            number: admission.number,
            old_session: uplink.old_session,
            request_type: uplink.request_type,
            verdict,
            delivery,
        }
    }

    pub(super) fn accept<D: Directory>(
        &mut self,
        ue: UeRecord<'_>,
        controls: &ControlTable<'_>,
        directory: &mut D,
        pool: &mut [u8],
        output: &mut [u8],
        message: &[u8],
    ) -> Result<Answer, Refusal>
        ensures does { DoesReceive (model self.old pool.old)
            (heard D.Directory ue.entry controls.now directory.old pool.old output.old message.now)
            output.new result (model self.new pool.new) }
        ensures output { IfOk result (λ a. OutputAfter output.old output.new a.delivery) }
        ensures untouched { OnErr result (output.new ≡ output.old) }
        ensures ticket { IfOk result (λ a. IsOpen (model self.new pool.new) a.delivery) }
        ensures directory { DirectoryAfter D.Directory (model self.old pool.old)
            (heard D.Directory ue.entry controls.now directory.old pool.old output.old message.now)
            result directory.old directory.new }
    {
        let admission = self.admit(ue, pool, output, message)?;
        Ok(self.handle(&admission, ue, controls, directory, pool, output))
    }
}
