//! Makes, adds and compares as many terms as the first argument says, and prints how many sums came after
//! the one before. `bench/terms.sh` times it.

#![tactic(auto)]

mod sums;

use std::{env, io};

fn main(rt: HostRuntime) -> io::Result<()> {
    let mut count = 0;
    for word in env::args(&rt)? {
        count = word.as_str().parse::<u64>().unwrap_or(0);
    }
    let ascents = sums::ascents(rt.alloc(), count).map_err(|_| io::ErrorKind::OutOfMemory)?;
    println!(rt; "{ascents}")
}
