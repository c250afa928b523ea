//! The command line of unum: words and bytes in, a report out.
#![tactic(auto)]

mod answer;
mod central;
mod commands;
mod flat_code;
mod refusals;
mod run;
mod shown;
mod status;
mod taking;
mod texts;
mod top;
mod validate;
mod words;
mod worlds;
mod writing;

pub use answer::{Desk, Status};
pub use bundle_read::{
    BRule, BrokenPair, Bundle, BundleError, Refusal, RuleCode, generate, open_bundle, read_bundle,
};
pub use flat_code::flat_code_is_judged_once;
pub use run::run_with_workers;
pub use session_report::{report, totals_line};
pub use shown::{worked_plans, worked_standings, worked_words};
pub use top::tool;
