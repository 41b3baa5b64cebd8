//! A web service over a heap, as answers: a thread's accounts answer a connection's requests (`http_server`), and each answer tells whether
//! its transfer was made. A 200 is of a transfer that no crash takes back.
//!
//! `POST /transfer/FROM/TO/AMOUNT` moves an amount between two accounts, numbered from 0: objects whose field of the same number is their
//! balance. [`Accounts`] answers, and [`serve`](http_server::serve) reads and writes over any connection.
#![tactic(auto)]

mod account_access;
mod accounts;
mod answer;
mod moving;
mod order;

pub use accounts::Accounts;
pub use answer::Answer;
pub use moving::{Made, transfer};
pub use order::{Order, order_of};
