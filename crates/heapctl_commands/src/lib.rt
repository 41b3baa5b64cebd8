//! What the program's words do (docs/SCRIPTS.md). They play a script, in memory or over an image file. They make, show, draw or recover an
//! image file. And they let workers in threads of their own work on a heap, in memory or in an image file.
//!
//! [`obey`] does what [`Words`](heapctl_words::Words) ask for. [`status_of_fault`] is the exit status where it didn't, and [`explain`] tells
//! which file is why. Under it, [`drive`] is the word of workers, [`drive_in_file`] lets them work on a file that is open, and
//! [`write_driven`] writes what they have done.
#![tactic(auto)]

mod driving;
mod driving_files;
mod explaining_faults;
mod fault;
mod forms;
mod head;
mod holder;
mod kept_text;
mod obeying;
mod progress;
mod refused;
mod status;
mod system_errors;
mod telling;
mod told_images;
mod values;

pub use driving::drive;
pub use driving_files::drive_at;
pub use explaining_faults::{
    explain, is_left_by_reader, is_something_there, tell_kept, tell_salvaged,
};
pub use fault::WorkFault;
pub use kept_text::KeptText;
pub use obeying::obey;
pub use progress::Watch;
pub use status::{FAULT, IN_USE, WRONG_INPUT, status_of_fault};
pub use telling::write_driven;
pub use told_images::ToldImages;
