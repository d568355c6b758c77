// Messages that are received.
ghost use Rattle.std.specs.Prelude.{IfOk};
ghost use Rattle.examples.specs.Tickets.{HasOpen, IsOpen};

use super::Host;
use super::holding::{clear, end};
use super::standing::{contexts_of, same_contexts};
use crate::compare::{is_unwritten, is_written, one_slot_is};
use crate::example::{End, Reply, Sending};
use crate::message::Message;
use crate::small_core::{REPLY, SENDING, UE};
use crate::tally::Tally;
use crate::tickets::{fail, take};
use codes::Refusal;
use directories::Directory;
use records::UeRecord;
use router::{Answer, Delivery, Ticket};
use std::alloc::AllocError;
use stores::Store;

// The payload of a message that was accepted.
fn payload_in(message: &[u8]) -> &[u8] {
    let [_, _, _, _, high, low, rest @ ..] = message else {
        return &[];
    };
    let length = u16::from_be_bytes([*high, *low]);
    rest.get(..usize::from(length)).unwrap_or(&[])
}

// Whether the message that goes back has the payload behind its header.
fn returns(output: &[u8], length: usize, payload: &[u8]) -> bool {
    let end = payload.len().saturating_add(6);
    length > end && output.get(6..end).is_some_and(|octets| octets == payload)
}

fn is_answer(answer: &Answer, reply: &Reply) -> bool {
    answer.number == reply.number
        && answer.old_session == reply.old_session
        && answer.request_type == reply.request_type
        && answer.verdict == reply.verdict
}

impl<'a, S: Store> Host<'a, S> {
    // What is sent, over an output that has nothing written yet.
    pub(super) fn receive_octets<D: Directory>(
        &mut self,
        directory: &mut D,
        sending: &Sending,
        message: &[u8],
    ) -> Result<Answer, Refusal>
        ensures { IfOk result (λ a. HasOpen self.new.router a.delivery) }
    {
        clear(self.output.as_mut_slice());
        let pool = sending.pool.min(self.pool.len());
        let output = sending.output.min(self.output.len());
        self.router.receive(
            sending.record,
            &self.controls,
            directory,
            &mut self.pool[..pool],
            &mut self.output[..output],
            message,
        )
    }

    // The payload stands in the pool, and nothing else was written.
    fn compare_placed(
        &self,
        tally: &mut Tally<'_>,
        before: &[u8],
        ticket: &Ticket,
        payload: &[u8],
    ) {
        let pool = self.pool.as_slice();
        let is_handed = match self.router.payload(pool, ticket) {
            Ok(octets) => octets == payload,
            Err(_) => false,
        };
        tally.compare("the payload that is handed out", is_handed);
        tally.compare("the pool", one_slot_is(pool, before, payload));
        tally.compare("an unwritten output", is_unwritten(self.output.as_slice()));
    }

    fn end_delivery(
        &mut self,
        tally: &mut Tally<'_>,
        before: &[u8],
        delivery: Delivery,
        octets: &[u8],
        how: End,
    )
        requires { HasOpen self.old.router delivery }
    {
        match delivery {
            Delivery::Forwarded(ticket) => {
                self.compare_placed(tally, before, &ticket, octets);
                end(
                    tally,
                    &mut self.router,
                    self.pool.as_slice(),
                    self.output.as_mut_slice(),
                    ticket,
                    how,
                );
            }
            Delivery::Returned { length } => {
                tally.compare("the length that goes back", length == octets.len());
                tally.compare(
                    "the octets that go back",
                    is_written(self.output.as_slice(), octets),
                );
                tally.compare("an unwritten pool", self.pool.as_slice() == before);
            }
        }
    }

    pub(super) fn receive<D: Directory>(
        &mut self,
        tally: &mut Tally<'_>,
        directory: &mut D,
        sending: &Sending,
        reply: &Reply,
        how: End,
    ) -> Result<(), AllocError> {
        let message = sending.message.octets(self.heap)?;
        let before = self.pool.as_slice().to_vec(self.heap)?;
        match self.receive_octets(directory, sending, message.as_slice()) {
            Ok(answer) => {
                tally.compare("the answer to a message", is_answer(&answer, reply));
                let Answer {
                    number: _,
                    old_session: _,
                    request_type: _,
                    verdict: _,
                    delivery,
                } = answer;
                self.end_delivery(tally, before.as_slice(), delivery, reply.octets, how);
            }
            Err(_) => tally.compare("accepting a message", false),
        }
        Ok(())
    }

    // The flight of a message that should have been refused is over.
    fn discard(&mut self, answer: Answer)
        requires { HasOpen self.old.router answer.delivery }
    {
        let Answer {
            number: _,
            old_session: _,
            request_type: _,
            verdict: _,
            delivery,
        } = answer;
        match delivery {
            Delivery::Forwarded(ticket) => take(&mut self.router, ticket),
            Delivery::Returned { length: _ } => {}
        }
    }

    // Nothing changes where a message is refused.
    pub(super) fn refuse<D: Directory>(
        &mut self,
        tally: &mut Tally<'_>,
        directory: &mut D,
        sending: &Sending,
        number: u8,
    ) -> Result<(), AllocError> {
        let message = sending.message.octets(self.heap)?;
        let before = self.pool.as_slice().to_vec(self.heap)?;
        let contexts = contexts_of(&self.router, sending.record.number);
        match self.receive_octets(directory, sending, message.as_slice()) {
            Ok(answer) => {
                tally.compare("refusing a message", false);
                self.discard(answer);
            }
            Err(refusal) => {
                tally.compare("the refusal of a message", u8::from(refusal) == number);
            }
        }
        tally.compare("an unwritten output", is_unwritten(self.output.as_slice()));
        tally.compare(
            "an unwritten pool",
            self.pool.as_slice() == before.as_slice(),
        );
        tally.compare(
            "the contexts after a refusal",
            same_contexts(&contexts, &contexts_of(&self.router, sending.record.number)),
        );
        Ok(())
    }

    pub(super) fn refuse_all<D: Directory>(
        &mut self,
        tally: &mut Tally<'_>,
        directory: &mut D,
        messages: &[Message],
        number: u8,
    ) -> Result<(), AllocError> {
        for message in messages {
            let sending = Sending {
                message: *message,
                ..SENDING
            };
            self.refuse(tally, directory, &sending, number)?;
        }
        Ok(())
    }

    // The payload of a message that is accepted is forwarded or goes back. Where it is forwarded, the
    // SMF does not take it, so that no context stays.
    fn end_accepted(
        &mut self,
        tally: &mut Tally<'_>,
        before: &[u8],
        delivery: Delivery,
        payload: &[u8],
    )
        requires { HasOpen self.old.router delivery }
    {
        match delivery {
            Delivery::Forwarded(ticket) => {
                self.compare_placed(tally, before, &ticket, payload);
                let pool = self.pool.as_slice();
                let output = self.output.as_mut_slice();
                let answer = fail(&mut self.router, pool, output, ticket);
                tally.compare(
                    "the payload of a failed flight",
                    answer.is_ok_and(|length| returns(output, length, payload)),
                );
            }
            Delivery::Returned { length } => tally.compare(
                "the payload that goes back",
                returns(self.output.as_slice(), length, payload),
            ),
        }
    }

    fn accept<D: Directory>(
        &mut self,
        tally: &mut Tally<'_>,
        directory: &mut D,
        message: &Message,
        expected: u32,
    ) -> Result<(), AllocError> {
        let octets = message.octets(self.heap)?;
        let before = self.pool.as_slice().to_vec(self.heap)?;
        match self.receive_octets(directory, &SENDING, octets.as_slice()) {
            Ok(
                Answer {
                    number,
                    old_session: _,
                    request_type: _,
                    verdict: _,
                    delivery,
                },
            ) => {
                tally.compare("the number of a message", number == expected);
                self.end_accepted(
                    tally,
                    before.as_slice(),
                    delivery,
                    payload_in(octets.as_slice()),
                );
            }
            Err(_) => tally.compare("accepting a message", false),
        }
        Ok(())
    }

    pub(super) fn accept_all<D: Directory>(
        &mut self,
        tally: &mut Tally<'_>,
        directory: &mut D,
        messages: &[Message],
        first: u32,
    ) -> Result<(), AllocError> {
        let mut number = first;
        for message in messages {
            self.accept(tally, directory, message, number)?;
            number = number.saturating_add(1);
        }
        Ok(())
    }

    // The sample message of so many UEs, from this one on.
    fn receive_many<D: Directory>(
        &mut self,
        tally: &mut Tally<'_>,
        directory: &mut D,
        first: u32,
        count: u32,
        number: u32,
        how: End,
    ) -> Result<(), AllocError> {
        for i in 0..count {
            let sending = Sending {
                record: UeRecord {
                    number: first.saturating_add(i),
                    ..UE
                },
                ..SENDING
            };
            let reply = Reply {
                number: number.saturating_add(i),
                ..REPLY
            };
            self.receive(tally, directory, &sending, &reply, how)?;
        }
        Ok(())
    }

    pub(super) fn establish<D: Directory>(
        &mut self,
        tally: &mut Tally<'_>,
        directory: &mut D,
        first: u32,
        count: u32,
        number: u32,
    ) -> Result<(), AllocError> {
        self.receive_many(tally, directory, first, count, number, End::Taken)
    }

    pub(super) fn fly<D: Directory>(
        &mut self,
        tally: &mut Tally<'_>,
        directory: &mut D,
        first: u32,
        count: u32,
        number: u32,
    ) -> Result<(), AllocError> {
        self.receive_many(tally, directory, first, count, number, End::Parked)
    }
}
