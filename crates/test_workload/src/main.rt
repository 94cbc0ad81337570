//! Prints of each workload that `numbers.txt` tells how many bytes and functions it has, and what its `main` gives.
#![tactic(auto)]

mod row;

use row::row_text;
use test_lines::{Stop, read_table};

fn main(rt: HostRuntime) -> Result<(), Stop> {
    let table = read_table(&rt, "numbers.txt")?;
    for line in table.as_str().lines() {
        let told = row_text(rt.alloc(), line)?;
        print!(rt; "{told}")?;
    }
    Ok(())
}
