// A host of a router, with all that the router is lent.
mod foreign;
mod holding;
mod receiving;
mod standing;

use crate::example::{Example, Step};
use crate::small_core::{NAMES, OUTPUT_LENGTH};
use crate::tally::Tally;
use codes::SetupError;
use control::ControlTable;
use directories::Directory;
use names::Book;
use router::{POOL_LENGTH, Router};
use std::alloc::{AllocError, Global};
use stores::Store;

#[derive(Drop)]
pub(crate) struct Host<'a, S: Store> {
    heap: Global,
    router: Router<S>,
    controls: ControlTable<'a>,
    pool: Vec<u8>,
    output: Vec<u8>,
}

impl<'a, S: Store + Drop> Host<'a, S> {
    pub(crate) fn open(
        heap: Global,
        example: &Example,
        store: S,
        mut controls: ControlTable<'a>,
    ) -> Result<Host<'a, S>, SetupError> {
        for (numbers, back_off) in example.controls {
            controls.set(*numbers, *back_off)?;
        }
        let book = Book::new(heap, &NAMES)?;
        let pool = vec![in heap; 0x5C; POOL_LENGTH]?;
        let output = vec![in heap; 0; OUTPUT_LENGTH]?;
        let router = Router::open(heap, &book, example.configuration, example.first, store)?;
        Ok(Host {
            heap,
            router,
            controls,
            pool,
            output,
        })
    }
}

impl<'a, S: Store> Host<'a, S> {
    // What is asked, compared with what has to be answered.
    fn take_step<D: Directory>(
        &mut self,
        tally: &mut Tally<'_>,
        directory: &mut D,
        step: &Step,
    ) -> Result<(), AllocError> {
        match *step {
            Step::Receive(sending, reply, end) => {
                self.receive(tally, directory, &sending, &reply, end)?;
            }
            Step::Refuse(sending, number) => {
                self.refuse(tally, directory, &sending, number)?;
            }
            Step::RefuseAll(messages, number) => {
                self.refuse_all(tally, directory, messages, number)?;
            }
            Step::AcceptAll(messages, first) => {
                self.accept_all(tally, directory, messages, first)?;
            }
            Step::Establish(ue, count, first) => {
                self.establish(tally, directory, ue, count, first)?;
            }
            Step::Fly(ue, count, first) => self.fly(tally, directory, ue, count, first)?,
            Step::Pick(number, end) => self.pick(tally, number, end),
            Step::RefusePick(number) => self.refuse_pick(tally, number),
            Step::Payload(number, pool, reply) => self.payload(tally, number, pool, reply),
            Step::Release(session, refusal) => self.release(tally, session, refusal),
            Step::Find(session, context) => self.find(tally, session, context),
        }
        Ok(())
    }

    pub(crate) fn play<D: Directory>(
        &mut self,
        tally: &mut Tally<'_>,
        directory: &mut D,
        example: &Example,
    ) -> Result<(), AllocError> {
        for step in example.steps {
            tally.next_call();
            self.take_step(tally, directory, step)?;
        }
        self.find_all(tally, example.contexts);
        Ok(())
    }
}
