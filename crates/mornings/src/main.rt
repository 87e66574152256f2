// The paper's mornings: their claims, their rounds and their runs; lists that are offered, bad input of every kind, and a
// round in two orders.
#![tactic(auto)]

use std::io;

mod claims;
mod graphs;
mod lists;
mod mornings;
mod orders;
mod parts;
mod questions;
mod refusals;
mod rounds;
mod runs;
mod say;

fn main(rt: HostRuntime) -> io::Result<()> {
    println!(rt; "The mornings")?;
    mornings::small(&rt)?;
    mornings::ninth(&rt)?;
    mornings::eleventh(&rt)?;
    println!(rt; "\nLists")?;
    lists::third(&rt)?;
    lists::twelfth(&rt)?;
    println!(rt; "\nQuestions")?;
    questions::nodes(&rt)?;
    questions::lists(&rt)?;
    questions::rooms(&rt)?;
    questions::bad_row(&rt)?;
    println!(rt; "\nBad graphs")?;
    refusals::counts(&rt)?;
    refusals::rows(&rt)?;
    refusals::order(&rt)?;
    println!(rt; "\nRuns")?;
    runs::two_nodes(&rt)?;
    runs::rounds(&rt)?;
    println!(rt; "\nOrders")?;
    orders::both(&rt)
}
