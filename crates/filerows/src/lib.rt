// The rows of a hall file, read in place: little-endian numbers, the table of blocks, and the places between rows.
// It stands on `hall` for what the bytes mean; which rows are left from a place on is `rest_at` of specs/Places.antt.
#![tactic(auto)]

pub mod blocks;
pub mod little;
pub mod places;
pub mod view;
