//! Workers: numbers that threads claim, and a crew of hands that works inputs by claimed number.
#![tactic(auto)]

mod batch;
mod claims;
mod crew;
mod hand;
mod held;
mod job;
mod law;
mod machine;
mod pass;
mod room;
mod run;
mod view;

pub use batch::work_batch;
pub use claims::Claims;
pub use crew::Crew;
pub use hand::Hand;
pub use held::Held;
pub use job::Job;
pub use law::steps_keep_the_rule;
pub use machine::Machine;
pub use pass::Pass;
pub use room::Room;
pub use run::run_all;
