// The router: what is in flight, and the store of contexts, which it owns.
ghost use Rattle.std.specs.Prelude.{◌≡◌, true, length};
ghost use Rattle.names.specs.Names.{GoodNames};
ghost use Rattle.records.specs.Configurations.{configuration_fits};
ghost use Rattle.router.specs.Fits.{FlightsFit};

mod flying;
mod opening;
mod receiving;

use crate::answer::Answer;
use crate::ticket::Ticket;
use crate::unopened::Unopened;
use codes::{HandedBack, Refusal};
use control::ControlTable;
use directories::Directory;
use flights::Flights;
use names::Book;
use records::{Configuration, UeRecord};
use std::alloc::Global;
use stores::{Context, PduSession, Store};

/// Takes the UL NAS TRANSPORT messages of UEs, finds the routing context of each PDU session, and
/// forwards the payload to an SMF or returns it with a cause. What a call refuses changes nothing.
#[derive(Drop)]
pub struct Router<S: Store> {
    store: S,
    book: Book,
    configuration: Configuration,
    flights: Flights,
    // The next ticket number. Once the last is given it is none.
    next: u64,
    ghost named: { GoodNames book },
    ghost configured: { configuration_fits (length book) configuration ≡ true },
    ghost fits: { FlightsFit flights.slots },
}

impl<S: Store> Router<S> {
    ghost use Rattle.std.specs.Prelude.{◌≡◌, IfErr, MatchResult, IfOk, OnErr, true};
    ghost use Rattle.router.specs.Buffers.{FrontWritten};
    ghost use Rattle.router.specs.Calls.{DoesPayload, DoesTaken, DoesFailed, DoesPark, DoesPick, DoesReleased};
    ghost use Rattle.router.specs.Calls.{payload_entry, taken_entry, failed_entry, park_entry, pick_entry, released_entry};
    ghost use Rattle.router.specs.Openings.{opening, opening_fits, IsOpened, BeginsIn, OpensIf};
    ghost use Rattle.router.specs.Receiving.{heard, DoesReceive, receive_entry, IsOpen, OutputAfter, DirectoryAfter};
    ghost use Rattle.router.specs.Views.{model, store_of, contexts_of, Lawful, LawfulWith, LawfulOver, Accounted};
    ghost use Rattle.stores.specs.Contexts.{lookup};

    /// The context of a session, if one stands; none for a UE or session out of bounds.
    pub fn context(&self, session: PduSession) -> Option<Context>
        ensures { result ≡ lookup (contexts_of self.now) session.ue session.id }
    {
        self.store.find(session)
    }

    /// Gives the store back as it is, with the contexts that stand. The router is gone then: a
    /// ticket that is still held can no longer be given back, so a host ends or parks its tickets
    /// first.
    pub fn into_store(self) -> S
        ensures store { result ≡ store_of self }
        ensures account { Accounted self result }
    {
        self.close()
    }

    // ---- the calls, with the law over all runs

    /// A router over an empty store, which it owns from now on. The book is copied. It is refused
    /// where a DNN number of the configuration is not in the book, the first ticket number is 0, or
    /// a context stands; the store is handed back then, and where memory is wanting.
    pub fn open(
        heap: Global,
        book: &Book,
        configuration: Configuration,
        first: u32,
        store: S,
    ) -> Result<Router<S>, Unopened<S>>
        ensures opened { IfOk result (IsOpened (opening book.now configuration first)) }
        ensures begins { IfOk result (BeginsIn (opening book.now configuration first)) }
        ensures fits { OpensIf
            (opening_fits (opening book.now configuration first) (S.Store.contexts store)) result }
        ensures store { MatchResult result (λ r. store_of r ≡ store) (λ u. u.store ≡ store) }
    {
        Router::begin(heap, book, configuration, first, store)
    }

    /// A message of a UE (UL NAS TRANSPORT, 3GPP TS 24.501, 8.2.10): its payload is forwarded to an
    /// SMF, or goes back with a cause. `pool` has [`POOL_LENGTH`](crate::POOL_LENGTH) octets, and
    /// `output` room for the payload and 13 octets more. A refusal changes nothing.
    pub fn receive<D: Directory>(
        &mut self,
        ue: UeRecord<'_>,
        controls: &ControlTable<'_>,
        directory: &mut D,
        pool: &mut [u8],
        output: &mut [u8],
        message: &[u8],
    ) -> Result<Answer, Refusal>
        ensures does { DoesReceive (model self.old pool.old)
            (heard D.Directory ue.entry controls.now directory.old pool.old output.old message.now)
            output.new result (model self.new pool.new) }
        ensures lawful { LawfulOver pool.old pool.new self.old self.new
            (receive_entry (model self.old pool.old)
            (heard D.Directory ue.entry controls.now directory.old pool.old output.old message.now)
            output.new result) }
        ensures output { IfOk result (λ a. OutputAfter output.old output.new a.delivery) }
        ensures untouched { OnErr result (output.new ≡ output.old) }
        ensures ticket { IfOk result (λ a. IsOpen (model self.new pool.new) a.delivery) }
        ensures directory { DirectoryAfter D.Directory (model self.old pool.old)
            (heard D.Directory ue.entry controls.now directory.old pool.old output.old message.now)
            result directory.old directory.new }
    {
        self.accept(ue, controls, directory, pool, output, message)
    }

    /// The payload of a ticket: the octets that its slot of the pool begins with. It is refused
    /// where the pool has another length, or the ticket is not open here.
    pub fn payload<'p>(&self, pool: &'p [u8], ticket: &Ticket) -> Result<&'p [u8], Refusal>
        ensures does { DoesPayload self.now pool.now ticket.now result }
        ensures lawful { LawfulWith pool.now self.now self.now (payload_entry pool.now ticket.now result) }
    {
        self.hand_out(pool, ticket)
    }

    /// An SMF took the payload: its flight is over. The ticket is handed back where it is not open here.
    #[tactic(auto, using(runs::proofs::Whole::lawful))]
    pub fn taken(&mut self, ticket: Ticket) -> Result<(), HandedBack<Ticket>>
        ensures does { DoesTaken self.old ticket result self.new }
        ensures lawful { Lawful self.old self.new (taken_entry ticket result) }
        ensures handed_back { IfErr result (λ e. e.value ≡ ticket) }
    {
        self.take(ticket)
    }

    /// The SMF did not take the payload: its return (DL NAS TRANSPORT with 5GMM cause 90) is
    /// written to the front of `output`, and the context that was put for it is gone. What is
    /// answered is the length of the return. The ticket is handed back where the pool has another
    /// length, the ticket is not open here, or the output is shorter than the payload and 13
    /// octets.
    pub fn failed(
        &mut self,
        pool: &[u8],
        output: &mut [u8],
        ticket: Ticket,
    ) -> Result<usize, HandedBack<Ticket>>
        ensures does { DoesFailed self.old pool.now output.old ticket output.new result self.new }
        ensures lawful { LawfulWith pool.now self.old self.new
            (failed_entry pool.now output.old ticket output.new result) }
        ensures rest { IfOk result (λ n. FrontWritten n output.old output.new) }
        ensures untouched { OnErr result (output.new ≡ output.old) }
        ensures handed_back { IfErr result (λ e. e.value ≡ ticket) }
    {
        self.fail(pool, output, ticket)
    }

    /// Exchanges a ticket for its number. The ticket is handed back where it is not open here.
    #[tactic(auto, using(runs::proofs::Whole::lawful))]
    pub fn park(&mut self, ticket: Ticket) -> Result<u32, HandedBack<Ticket>>
        ensures does { DoesPark self.old ticket result self.new }
        ensures lawful { Lawful self.old self.new (park_entry ticket result) }
        ensures handed_back { IfErr result (λ e. e.value ≡ ticket) }
    {
        self.set_aside(ticket)
    }

    /// Exchanges the number of a parked ticket for the ticket. Refused where no ticket of that
    /// number is parked.
    #[tactic(auto, using(runs::proofs::Whole::lawful))]
    pub fn pick(&mut self, number: u32) -> Result<Ticket, Refusal>
        ensures does { DoesPick self.old number result self.new }
        ensures lawful { Lawful self.old self.new (pick_entry number result) }
    {
        self.pick_up(number)
    }

    /// The SMF released the session: its context is gone. Refused where it has none.
    #[tactic(auto, using(runs::proofs::Whole::lawful))]
    pub fn released(&mut self, session: PduSession) -> Result<(), Refusal>
        ensures does { DoesReleased self.old session result self.new }
        ensures lawful { Lawful self.old self.new (released_entry session result) }
    {
        self.release(session)
    }
}
