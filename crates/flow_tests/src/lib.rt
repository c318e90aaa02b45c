//! Examples of flows and charts: the ticket flow, rows of seats, every refusal and every limit.
#![tactic(auto)]

mod charts;
mod limits;
mod seat_rows;
mod tables;
