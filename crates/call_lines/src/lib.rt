// The lines of connection calls: one call on a record of its own, and one call on a table.
#![tactic(auto)]

mod one_call;
mod one_record;
mod one_table;

pub use one_call::call_at;
pub use one_table::table_at;
