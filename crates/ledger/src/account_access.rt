//! How a transfer takes accounts' monitors, reads and stores their balances, and gives the monitors back: which of these can't be refused.
ghost use Rattle.std.specs.Prelude.{◌≡◌, ◌+◌, ◌<◌, ◌≤◌, IfErr, IfOk, IfSome, None, Ok};
ghost use Rattle.heap_model.specs.declared.limits.TheConstants.{SECTION_RECORDS};
ghost use Rattle.thread_steps.specs.Views.{plan};
ghost use Rattle.session.specs.Calls.{Exits, HoldsGuard, StoresAs, WaitsToEnter};
ghost use Rattle.ledger.specs.Transfers.{HasStoredNothing, IsAccount, balance_of, monitor_of};
ghost use Rattle.ledger.specs.Holding.{HasRead, IsTaken, KeepsOthers, Misses, SameHolds, Stays, Took, needs};

use std::sync::Wait;
use thread_work::{FieldId, HeapThread, Joint, ObjectId, SessionError};

// Takes the monitor. A refusal has stored nothing.
pub(crate) fn take<J: Joint, R: Wait>(
    rt: &R,
    thread: &mut HeapThread<'_, J>,
    object: ObjectId,
) -> Result<(), SessionError>
    ensures told { WaitsToEnter J.home thread.old thread.new object result }
    ensures took { IfOk result (λ done. Took J.home thread.old thread.new object) }
    ensures missed { IfErr result (λ e. Misses J.home thread.old thread.new object e) }
{
    thread.enter(rt, object)
}

// Gives the monitor back, which can't be refused: the thread has it.
pub(crate) fn leave<J: Joint>(thread: &mut HeapThread<'_, J>, object: ObjectId)
    requires { IsTaken J.home thread.old object }
    ensures told { Exits J.home thread.old thread.new object (Ok tt) }
    ensures others { KeepsOthers J.home thread.old thread.new object }
    ensures nothing { HasStoredNothing thread.old thread.new }
{
    let _ = thread.exit(object);
}

// The account's balance, under its monitor; none where there is no such account.
pub(crate) fn read<J: Joint>(thread: &mut HeapThread<'_, J>, account: u32) -> Option<u64>
    requires { IsTaken J.home thread.old (monitor_of account) }
    ensures some { IfSome result (λ balance. HasRead J.home thread.old thread.new account balance) }
    ensures none { result ≡ None → ¬ IsAccount J.home account }
    ensures stays { Stays thread.old thread.new }
{
    thread.load(FieldId(account)).ok()
}

// Stores the account's balance, which can't be refused: the thread has the field's guard, and the section has room for the record.
pub(crate) fn put<J: Joint>(thread: &mut HeapThread<'_, J>, account: u32, balance: u64)
    requires field { account < (plan J.home).fields }
    requires guard { HoldsGuard J.home thread.old (balance_of account) }
    requires room { needs thread.old < SECTION_RECORDS }
    ensures told { StoresAs J.home thread.old thread.new (balance_of account) balance (Ok tt) }
    ensures holds { SameHolds thread.old thread.new }
    ensures needs { needs thread.new ≤ needs thread.old + 1 }
{
    let _ = thread.store(FieldId(account), balance);
}
