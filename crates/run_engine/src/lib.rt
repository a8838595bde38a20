//! One run over a window: lanes map the leaves that came, a tree for each part merges them, and both memos are swept
//! meanwhile.
//!
//! Start at [`Engine`], whose `run` brings the window's changes in and whose `root` returns the table of a part. A run
//! costs the leaves that the window's shift names and the trees' changed paths. It copies no text, and of the leaves
//! that stay it only moves list entries. Out of memory, a run changes only the memos' histories.
#![tactic(auto)]

mod advancing;
mod bringing;
mod dealing;
mod engine;
mod finishing;
mod handing;
mod inputs;
mod lane_seat;
mod lane_worker;
mod making;
mod part_seat;
mod part_worker;
mod row;
mod shifting;
mod sweep_seat;
mod task;
mod working;

pub use engine::Engine;
pub use run_settings::Settings;
