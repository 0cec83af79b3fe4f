//! Takes the steps that a real processor took, which stand on standard input as tools/record_steps.c printed them, and
//! prints how many led elsewhere, after their rows.
#![tactic(auto)]

mod replay;
mod rows;

use replay::is_as_recorded;
use rows::row_of;
use std::io::Read;
use std::{io, str};

fn main(rt: HostRuntime) -> io::Result<()> {
    let mut bytes = Vec::new(rt.alloc());
    rt.stdin().read_to_end(&mut bytes)?;
    let Ok(text) = str::from_utf8(bytes.as_slice()) else {
        return println!(rt; "not text");
    };
    let mut rows = 0u64;
    let mut others = 0u64;
    for row in text.lines() {
        rows = rows.saturating_add(1);
        let agrees = match row_of(rt.alloc(), row) {
            Some(step) => is_as_recorded(rt.alloc(), &step),
            None => false,
        };
        if !agrees {
            others = others.saturating_add(1);
            println!(rt; "{row}")?;
        }
    }
    println!(rt; "{rows} steps, {others} not as recorded")
}
