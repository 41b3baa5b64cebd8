//! The heap for C, and for what calls as C does: a static library, with `zelamiku.h`.
//!
//! A host keeps a handle for a heap, and one for each session. A call works on the heap or session where it lies. An empty
//! handle is answered `NOTHING`. No call takes two heaps, and none waits.
#![tactic(auto)]

mod copy_calls;
mod copy_exports;
mod handle;
mod head_calls;
mod heap_calls;
mod heap_exports;
mod journal_calls;
mod journal_exports;
mod layout_calls;
mod layout_exports;
mod loose;
mod opening_exports;
mod pool_calls;
mod pool_exports;
mod report_calls;
mod session_calls;
mod session_exports;
mod slot;
mod state;
mod status;
mod stop_calls;
mod stop_exports;
mod version;
mod words;

pub use copy_exports::zelamiku_copy;
pub use heap_exports::{
    zelamiku_acknowledged, zelamiku_call_done, zelamiku_close, zelamiku_free, zelamiku_next_call,
    zelamiku_round, zelamiku_session, zelamiku_waiting,
};
pub use journal_exports::{
    zelamiku_journal_create, zelamiku_journal_open, zelamiku_journal_order, zelamiku_journal_read,
    zelamiku_journal_sync, zelamiku_journal_write,
};
pub use layout_exports::{zelamiku_fields, zelamiku_head};
pub use opening_exports::{zelamiku_format, zelamiku_open, zelamiku_upgrade};
pub use pool_exports::{zelamiku_pool_fields, zelamiku_pool_give, zelamiku_pool_take};
pub use session_exports::{
    zelamiku_begin_wait, zelamiku_end, zelamiku_exit, zelamiku_lane, zelamiku_load, zelamiku_look,
    zelamiku_notify, zelamiku_notify_all, zelamiku_round_sections, zelamiku_store,
    zelamiku_try_enter, zelamiku_try_resume,
};
pub use stop_exports::zelamiku_call_failed;
pub use version::zelamiku_version;
