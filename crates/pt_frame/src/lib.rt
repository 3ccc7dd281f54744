//! The frame round every request: deeds, holds, the grammar of what a job may do, and the machine that takes its
//! steps.
#![tactic(auto)]

mod act;
mod asking;
mod edit;
mod finish;
mod hold;
mod laws;
mod machine;
mod marks;
mod product;
mod told;

pub use act::{Act, ActReply, KeptAct, Want};
pub use asking::{Asked, Stop, ask, bares, brackets, kept_bytes, kept_entries, open, shuts};
pub use edit::Editing;
pub use finish::Finish;
pub use hold::{Hold, Holds, Taken};
pub use laws::{
    choices_are_kept, cut_says_no_more, jobs_are_determined, losses_are_told,
    memory_ran_out_at_a_step, seats_are_tended,
};
pub use machine::{Body, Framed, ended, row_fd};
pub use product::Product;
pub use told::{Brings, Heard, Moved, Told};
