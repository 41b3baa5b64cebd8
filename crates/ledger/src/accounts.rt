//! A thread's accounts, as a service.
ghost use Rattle.std.specs.Prelude.{◌≡◌, ◌⊎◌, IfOk, MatchOption};
ghost use Rattle.thread_work.specs.Threads.{IsDurable, IsUnsettled};
ghost use Rattle.ledger.specs.Answers.{Answers, AsksFor, AsksForNone, IsAnswer, IsUnasked};
ghost use Rattle.ledger.specs.declared.answer.Answer.TheVariants.{Durable, NotDurable};

use crate::answer::Answer;
use crate::moving::{Made, transfer};
use crate::order::{Order, order_of};
use bytes::{BufMut, Bytes};
use http::Request;
use http_server::{Response, Service};
use std::alloc::{AllocError, Global};
use std::sync::Wait;
use thread_work::{HeapThread, Joint, SessionError};

/// The longest text of an answer, in bytes.
const MOST_TEXT: usize = 8;

/// A thread of a heap, as a service for one connection: each answer is made before the next request is read.
#[derive(Drop)]
pub struct Accounts<'t, 'a, J: Joint, R: Wait> {
    /// What waits.
    pub rt: &'t R,
    /// Where a request's text is made again, and an answer's text.
    pub alloc: Global,
    /// The thread.
    pub thread: &'t mut HeapThread<'a, J>,
}

impl<'t, 'a, J: Joint, R: Wait> Service for Accounts<'t, 'a, J, R> {
    // A request is answered 200 only where it spells an order, the order was made as one section, and the thread has slept until it
    // was durable. Each other answer says whether the order was made.
    ghost answers = { λ old request response new. Answers J.home old.thread.now request response new.thread.now };

    fn call(
        &mut self,
        request: &Request<Bytes>,
        response: &mut Response,
    ) -> Result<(), AllocError> {
        let order = order_in(self.alloc, request)?;
        // The text gets its room before the transfer: once that is made, no want of memory may keep its answer back.
        response.body.reserve(MOST_TEXT)?;
        let told = answer(self.rt, self.thread, order);
        response.status = told.status();
        response.body.put_slice(told.text().as_bytes())
    }
}

// The order that a request asks for.
fn order_in(alloc: Global, request: &Request<Bytes>) -> Result<Option<Order>, AllocError>
    // A request is taken for no order only where it asks for none.
    ensures { IfOk result (λ found. MatchOption found (AsksForNone request.now) (AsksFor request.now)) }
{
    if request.method().as_str() != "POST" {
        return Ok(None);
    }
    order_of(alloc, request.uri().path())
}

// The answer to it.
fn answer<J: Joint, R: Wait>(rt: &R, thread: &mut HeapThread<'_, J>, order: Option<Order>) -> Answer
    ensures { MatchOption order (IsUnasked thread.old thread.new result) (λ order. IsAnswer J.home thread.old order thread.new result) }
{
    match order {
        Some(order) => answer_order(rt, thread, order),
        None => Answer::NoTransfer,
    }
}

// The answer to an order. The thread holds no monitor over it: the transfer is a section of its own.
fn answer_order<J: Joint, R: Wait>(rt: &R, thread: &mut HeapThread<'_, J>, order: Order) -> Answer
    ensures { IsAnswer J.home thread.old order thread.new result }
{
    if order.amount == 0 || order.from == order.to {
        return Answer::NoTransfer;
    }
    if thread.holds() != 0 {
        return Answer::Stopped;
    }
    match transfer(rt, thread, order) {
        Ok(Made::Moved) => durable_answer(rt, thread),
        Ok(Made::TooLittle) => Answer::TooLittle,
        Ok(Made::TooMuch) => Answer::TooMuch,
        Ok(Made::NoAccount) => Answer::NoAccount,
        Err(SessionError::UnknownObject) => Answer::NoAccount,
        Err(_) => Answer::Stopped,
    }
}

// The answer once the helper has made a round, or has stopped.
fn durable_answer<J: Joint, R: Wait>(rt: &R, thread: &mut HeapThread<'_, J>) -> Answer
    ensures durable { result ≡ Durable → IsDurable thread.old thread.new }
    ensures not_durable { result ≡ NotDurable → IsUnsettled thread.old thread.new }
    ensures other { (result ≡ Durable) ⊎ (result ≡ NotDurable) }
{
    match thread.durable(rt) {
        Ok(()) => Answer::Durable,
        Err(_) => Answer::NotDurable,
    }
}
