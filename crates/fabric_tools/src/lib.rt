//! The tools that report what is in an image, by a chip database: `icebox_explain`, `icebox_diff`, `icebox_stat` and `icebox_plan`.
//!
//! Each tool has its command line, its usage line and its answer for what it loads. The function that
//! runs it has one clause: a run does the task that the arguments ask for.
#![tactic(auto)]

mod comparing;
mod counting;
mod explaining;
mod faults;
mod plan_naming;
mod plan_request;
mod planning;
mod request;

pub use comparing::{
    ICEBOX_DIFF_HELP, ICEBOX_DIFF_USAGE, diff_tells_equal_images, run_icebox_diff,
};
pub use counting::{ICEBOX_STAT_HELP, ICEBOX_STAT_USAGE, run_icebox_stat};
pub use explaining::run_icebox_explain;
pub use plan_request::{ICEBOX_PLAN_HELP, ICEBOX_PLAN_USAGE};
pub use planning::run_icebox_plan;
pub use request::{ICEBOX_EXPLAIN_HELP, ICEBOX_EXPLAIN_USAGE};
