//! What a transaction, a stop and a recovery do to the files of a database: a pure machine of events.
#![tactic(auto)]

mod beginning;
mod commit;
mod counts;
mod enabled;
mod event;
mod finish;
mod live;
mod lives;
mod locks;
mod log;
mod machine;
mod opening;
mod parts;
mod run;
mod steps;
mod stop;
mod work;
mod writes;

pub use event::{Answer, Event, Events};
pub use machine::Core;
pub use opening::is_opening;
pub use run::run_events;
pub use steps::step;
