//! Changes: their conditions, and what they are with positions in place of names.

pub mod insert_names;
pub mod insert_places;
pub mod insert_values;
pub mod inserted_rows;
pub mod insertion;
pub mod portion_changes;
pub mod portion_faults;
pub mod resolution;
pub mod row_positions;
