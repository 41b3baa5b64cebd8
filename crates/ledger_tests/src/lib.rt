//! Tests of: ledger.
//!
//! Tests of the service over a connection in memory, by public calls alone: the status and the text of each answer, what it leaves of the
//! balances, and what is answered once the device has failed.
#![tactic(auto)]

#[cfg(test)]
mod answers;
#[cfg(test)]
mod connection;
#[cfg(test)]
mod faults;
#[cfg(test)]
mod room;
