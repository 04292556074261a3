//! What all commands share: their words give them names of files and numbers, each of their files is fetched and read, and
//! their reply is written.
#![tactic(auto)]

mod admitted;
mod delivery;
mod fetching;
mod file_name;
mod within;

pub use admitted::{
    Admitted, MOST_TABLE_BYTES, SetWithRule, read_admitted, read_set, read_set_with_rule,
    read_work_of,
};
pub use delivery::deliver;
pub use fetching::fetch;
pub use file_name::FileName;
pub use within::{TaskCount, Ticks, Within};
