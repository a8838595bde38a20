//! From a script to the bytes that answer it, over a window of any kind. Start at [`serve`]; `specs/Output.antt` says
//! what is written, and `specs/Costs.antt` what it costs: a run costs the leaves that are new since the run before it,
//! and the paths of the trees above them.
#![tactic(auto)]

mod answering;
mod halt;
mod serving;
mod session;
mod work;

pub use halt::Halt;
pub use serving::serve;
pub use session::Session;
pub use work::Work;
