//! Four threads that transfer between accounts in the file accounts.heap. Each transfer is durable before its thread makes the next one.

use std::alloc::Global;
use std::sync::Wait;
use thread_files::{
    FieldId, FilePlan, HeapThread, Joint, ObjectId, Schema, SchemaBuilder, SessionError, Work,
    run_file,
};

const ACCOUNTS: u32 = 8;

const THREADS: u8 = 4;

#[derive(Drop)]
struct Transfers {
    rounds: u32,
}

impl Work for Transfers {
    fn work<J: Joint, R: Wait>(
        &self,
        rt: &R,
        thread: &mut HeapThread<'_, J>,
    ) -> Result<(), SessionError> {
        let lane = u32::from(thread.lane().0);
        for round in 0..self.rounds {
            let from = round.wrapping_add(lane) % ACCOUNTS;
            let to = (from + lane + 1) % ACCOUNTS;
            transfer(rt, thread, from, to, 1)?;
            if thread.durable(rt).is_err() {
                break;
            }
        }
        Ok(())
    }
}

// Both accounts' monitors are held over the transfer, the lesser taken first, so that no two threads wait for one another. They are given back
// also where the transfer is refused.
fn transfer<J: Joint, R: Wait>(
    rt: &R,
    thread: &mut HeapThread<'_, J>,
    from: u32,
    to: u32,
    amount: u64,
) -> Result<(), SessionError> {
    let (first, second) = (ObjectId(from.min(to)), ObjectId(from.max(to)));
    thread.enter(rt, first)?;
    if let Err(refused) = thread.enter(rt, second) {
        thread.exit(first)?;
        return Err(refused);
    }
    let moved = pay(thread, from, to, amount);
    thread.exit(second)?;
    thread.exit(first)?;
    moved
}

// Both balances are looked at before either is changed: where one has too little, or the other has no room, the section changes nothing.
fn pay<J: Joint>(
    thread: &mut HeapThread<'_, J>,
    from: u32,
    to: u32,
    amount: u64,
) -> Result<(), SessionError> {
    let left = thread.load(FieldId(from))?.checked_sub(amount);
    let more = thread.load(FieldId(to))?.checked_add(amount);
    if let (Some(left), Some(more)) = (left, more) {
        thread.store(FieldId(from), left)?;
        thread.store(FieldId(to), more)?;
    }
    Ok(())
}

// Each account has a field for its balance, which its monitor guards and which begins with 100.
fn accounts(alloc: Global) -> anyhow::Result<Schema> {
    let mut builder = SchemaBuilder::new(alloc);
    if let Err(refused) = declare(alloc, &mut builder) {
        drop(builder);
        return Err(refused);
    }
    match builder.build() {
        Ok(schema) => Ok(schema),
        Err((builder, refused)) => {
            drop(builder);
            Err(refused.into())
        }
    }
}

// Declares them.
fn declare(alloc: Global, builder: &mut SchemaBuilder) -> anyhow::Result<()> {
    for number in 0..ACCOUNTS {
        let account = builder.object(format!(in alloc; "account{number}")?.as_str())?;
        let balance = format!(in alloc; "balance{number}")?;
        builder.field(account, balance.as_str(), account, 100)?;
    }
    Ok(())
}

fn main(rt: HostRuntime) -> anyhow::Result<()> {
    let schema = accounts(rt.alloc())?;
    let work = Transfers { rounds: 100 };
    let plan = FilePlan::of(THREADS);
    let (outcome, _) = run_file(&rt, rt.alloc(), "accounts.heap", schema, plan, &work)?;
    outcome.answer?;
    for (number, balance) in outcome.heap.iter().enumerate() {
        println!(rt; "account {number}: {balance}")?;
    }
    println!(rt; "sections acknowledged: {:?}", outcome.acknowledged)?;
    Ok(())
}
