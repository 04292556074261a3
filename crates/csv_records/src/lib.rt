//! The records of a text, read one after another, and the rows that they mean.
#![tactic(auto)]

mod all;
mod fault;
mod fields;
mod records;
mod row_list;
mod row_reader;
mod rows;
mod takes_rows;
mod width;

pub use fault::Fault;
pub use fields::{field, is};
pub use records::{Next, Records};
pub use row_reader::RowReader;
pub use rows::{read_rows, take_rows};
pub use takes_rows::TakesRows;
