//! What statements mean, done plainly: `SlowDb` is a database over maps that answers each statement as
//! the definition `meaning` of `spe_model` says. Its pieces are the tests for the refusals, the length of
//! a record, and the rows that a statement shows and writes, each as the definitions there say.
#![tactic(auto)]

mod answers;
mod assigned;
mod conditions;
mod database;
mod length;
mod naming;
mod refused;
mod rows;
mod stored;

pub use answers::rowid_after;
pub use assigned::{by_column, given_rowid, given_to};
pub use conditions::is_chosen;
pub use database::SlowDb;
pub use length::encoded_length;
pub use naming::meant_by;
pub use refused::{
    has_column_condition, has_misfit, has_null, has_unknown_name, is_miscounted, rowless_refusal,
    sets_rowid,
};
pub use rows::{changed_values, is_too_long, new_values, selected};
pub use stored::{
    changed_rows, chosen_count, is_any_too_long, put_row, remove_chosen, selected_rows, write_rows,
};
