//! One transfer, as one section.
ghost use Rattle.std.specs.Prelude.{◌≡◌, ◌≢◌, ◌+◌, ◌≤◌, ◌⊎◌, IfErr, IfOk, Ok, Err};
ghost use Rattle.heap_model.specs.declared.limits.TheConstants.{SECTION_RECORDS};
ghost use Rattle.session.specs.Logs.{held_count};
ghost use Rattle.session.specs.Sessions.{view_of};
ghost use Rattle.session.specs.declared.error.SessionError.TheVariants.{UnknownObject};
ghost use Rattle.ledger.specs.declared.moving.Made.TheVariants.{Moved, NoAccount};
ghost use Rattle.ledger.specs.Transfers.{HasMade, HasPaid, HasStoredNothing, IsRefusedAMonitor, LacksAccount, monitors_of};
ghost use Rattle.ledger.specs.Holding.{HasBoth, SameHolds, needs};

use crate::account_access::{leave, put, read, take};
use crate::order::Order;
use std::sync::Wait;
use thread_work::{HeapThread, Joint, ObjectId, SessionError};

/// What has become of an order. Nothing was stored but by `Moved`.
#[derive(Clone, Copy, Debug, Drop, PartialEq, Eq)]
pub enum Made {
    /// The amount was moved.
    Moved,
    /// The balance is less than the amount.
    TooLittle,
    /// The other balance would pass 64 bits.
    TooMuch,
    /// An account has no field of its number under its monitor.
    NoAccount,
}

/// Moves the amount from the one account to the other, in one section, if the one has as much and the other has room for it. Both monitors
/// are held over it, the lesser taken first.
///
/// A refusal is that of an enter: the monitor that was taken before is given back. The thread holds no monitor
/// ([`HeapThread::holds`]), so that the section has room for both stores and ends here.
pub fn transfer<J: Joint, R: Wait>(
    rt: &R,
    thread: &mut HeapThread<'_, J>,
    order: Order,
) -> Result<Made, SessionError>
    requires apart { order.from ≢ order.to }
    requires outside { held_count (view_of thread.old) ≡ 0 }
    // A transfer that is made took both monitors, read both balances and then stored both, and gave both monitors back.
    ensures made { IfOk result (HasMade J.home thread.old order thread.new) }
    // A transfer that isn't made has stored nothing.
    ensures nothing { result ≢ Ok Moved → HasStoredNothing thread.old thread.new }
    // A transfer is refused for an account only where one of the two isn't there.
    ensures missing { (result ≡ Ok NoAccount) ⊎ (result ≡ Err UnknownObject) → LacksAccount J.home order }
    // Any other refusal is that of an enter of one of the two monitors.
    ensures refused { IfErr result (IsRefusedAMonitor J.home (monitors_of order) thread.old) }
{
    let (least, other) = monitors(order);
    if let Err(refusal) = take(rt, thread, least) {
        return Err(refusal);
    }
    if let Err(refusal) = take(rt, thread, other) {
        leave(thread, least);
        return Err(refusal);
    }
    let made = pay(thread, order);
    leave(thread, other);
    leave(thread, least);
    Ok(made)
}

// Moves the amount, under both monitors.
fn pay<J: Joint>(thread: &mut HeapThread<'_, J>, order: Order) -> Made
    requires both { HasBoth J.home thread.old (monitors_of order) }
    requires room { needs thread.old + 2 ≤ SECTION_RECORDS }
    ensures paid { HasPaid J.home thread.old order thread.new result }
    ensures nothing { result ≢ Moved → HasStoredNothing thread.old thread.new }
    ensures holds { SameHolds thread.old thread.new }
{
    // Both balances are read before either is stored: where one isn't there, or has no room, both stay as they were.
    let Some(balance) = read(thread, order.from) else {
        return Made::NoAccount;
    };
    let Some(other) = read(thread, order.to) else {
        return Made::NoAccount;
    };
    if balance < order.amount {
        return Made::TooLittle;
    }
    let Some(more) = other.checked_add(order.amount) else {
        return Made::TooMuch;
    };
    put(thread, order.from, balance - order.amount);
    put(thread, order.to, more);
    Made::Moved
}

// The monitors of both accounts, the lesser first.
fn monitors(order: Order) -> (ObjectId, ObjectId)
    ensures { result ≡ monitors_of order }
{
    if order.to < order.from {
        return (ObjectId(order.to), ObjectId(order.from));
    }
    (ObjectId(order.from), ObjectId(order.to))
}
