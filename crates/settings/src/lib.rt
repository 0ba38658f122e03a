// Settings: a unit and factors that passed every check, and what they tell.
#![tactic(auto)]

mod candidates;
mod checks;
mod inverses;
mod kept;
mod making;
mod places;
mod positions;
mod refusals;
mod splitting;
mod telling;

pub use kept::Setting;
pub use refusals::{RemainderRefusal, SettingRefusal};
