//! `rulecheck`, first form: prints the chart of the ticket flow and of a row of two seats, and counts both.
#![tactic(auto)]

ghost use Rattle.std.specs.Prelude.{◌≡◌, [], ◌∷◌, IfOk, string_bytes};
ghost use Rattle.flow.specs.Seats.{row_meaning};
ghost use Rattle.flow.specs.Borrowed.{lists_in};
ghost use Rattle.flow.specs.Tables.{table_meaning};
ghost use Rattle.rulecheck.specs.Answer.{whole};
ghost use Rattle.rulecheck.specs.Examples.{Ticket, TwoSeats};
ghost use Rattle.rulecheck.specs.Output.{ticket_tables, page_of, output};

mod answer;

use answer::{rule_line, text_in};
use chart::{chart, count_line, tally};
use flow::{SeatRow, TableFlow};
use std::alloc::{AllocError, Global};

// A ticket: state 0 is free and the start, 1 held, 2 sold; label 0 is `held`, label 1 is `sold`.
fn ticket() -> TableFlow<'static>
    ensures tables { lists_in result.tables ≡ ticket_tables }
    ensures drawn { Ticket (table_meaning (lists_in result.tables)) }
{
    // These tables are proved to be accepted.
    TableFlow::new(&[0, 1, 2], &[1, 0, 0], &[1, 0, 2, 2], &[0, 1, 3, 4]).unwrap()
}

// A row of two seats.
fn two_seats() -> SeatRow
    ensures seats { result.seats ≡ 2 }
    ensures drawn { TwoSeats (row_meaning result.seats) }
{
    SeatRow::new(2).unwrap()
}

// Both charts, and the line that counts them. An error stands for want of memory.
fn charts(heap: Global) -> Result<String, AllocError>
    ensures { IfOk result (λ t. string_bytes t ≡ output) }
{
    let ticket = ticket();
    let row = two_seats();
    let tickets = chart(heap, &ticket, &["held", "sold"])?;
    let seats = chart(heap, &row, &["free", "held", "sold"])?;
    let counts = count_line(heap, tally(&ticket).plus(tally(&row)))?;
    page(heap, tickets.as_str(), seats.as_str(), counts.as_str())
}

// The charts under their titles, and the counts. An error stands for want of memory.
fn page(heap: Global, tickets: &str, seats: &str, counts: &str) -> Result<String, AllocError>
    ensures { IfOk result (λ t. string_bytes t ≡ page_of tickets.now seats.now counts.now) }
{
    format!(in heap; "ticket flow\n{tickets}row of 2 seats\n{seats}{counts}")
}

/// All that is to be printed for an input: the charts, their counts, and the answer to the rule. An error stands for want
/// of memory.
pub fn report(heap: Global, input: &[u8]) -> Result<Vec<u8>, AllocError>
    ensures { IfOk result (λ v. v.items ≡ whole input.now) }
{
    let mut bytes = charts(heap)?.into_bytes();
    let line = rule_line(heap, text_in(input))?;
    bytes.extend_from_slice(line.as_slice())?;
    Ok(bytes)
}

fn main(rt: HostRuntime) -> anyhow::Result<()> {
    let text = charts(rt.alloc())?;
    rt.print(text)?;
    Ok(())
}
