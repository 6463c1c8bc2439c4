//! The commands of borgferry, over any devices.
//!
//! The program makes the devices and calls `run`; what `run` promises is what the program does. Its clauses say what each
//! status means and what goes to the output.
#![tactic(auto)]

mod check;
mod init;
mod items;
mod key;
mod keys;
mod laws;
mod lines;
mod list;
mod make_key;
mod top;
mod words;

pub use ferry_repo::{RepoFault, Secret};
pub use ferry_run_compact::compact_laws;
pub use ferry_run_plan::plan_laws;
pub use ferry_run_transfer::transfer_laws;
pub use ferry_status::{Limit, Refusal, Secrets, Status};
pub use laws::{complete_laws, following_laws, stop_laws};
pub use top::run;
pub use words::places_fit;
