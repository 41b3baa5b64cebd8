//! A round of two syncs, in the words of the threads' log.
//!
//! [`make_round`] takes the threads' newer records on and acknowledges a cut of all of them. It finds which places the lanes' records
//! take, and which rows the next control has. At every moment a crash leaves an image that shows the old cut or the new one. Of the
//! records beyond the cut, [`put_back`] finds the values that it keeps, and [`first_number`] where a section of the helper's stands,
//! whose records [`push_section`] makes. The first such round may follow a store's own steps ([`join_law`]). A round may also be made
//! in two turns, of which one logs and the other acknowledges ([`turns_law`]). What a crash leaves of rounds shows the acknowledged
//! cut or a later one ([`showing_law`]).
#![tactic(auto)]

mod beyond;
mod helper;
mod joining;
mod making;
mod records;
mod rows;
mod showing;
mod turns;

pub use beyond::{first_number, put_back};
pub use helper::push_section;
pub use joining::join_law;
pub use making::make_round;
pub use showing::showing_law;
pub use turns::turns_law;
