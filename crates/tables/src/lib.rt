//! The tables of a clearing room: its customers and its series, as plain records.
#![tactic(auto)]

pub mod customer;
pub mod customers;
pub mod position;
pub mod positions;
pub mod series;
pub mod series_table;
