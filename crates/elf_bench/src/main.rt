//! Reads an ELF-64 executable from standard input and prints its entry and a line for each of its segments: its
//! address, its sizes in memory and in the file, all in hexadecimal, and `x` where it is executable, `w` where it is
//! writable. A file that is refused gives the name and number of the refusal, and status 1.
#![tactic(auto)]

mod listing;

use elf_image::read_elf;
use listing::flags_of;
use std::io;
use std::io::Read;
use std::process::ExitCode;

fn main(rt: HostRuntime) -> io::Result<ExitCode> {
    let mut file = Vec::new(rt.alloc());
    rt.stdin().read_to_end(&mut file)?;
    let image = match read_elf(rt.alloc(), &file) {
        Ok(image) => image,
        Err(refusal) => {
            println!(rt; "{} ({})", refusal.name(), refusal.number())?;
            return Ok(ExitCode::FAILURE);
        }
    };
    println!(rt; "entry {:x}", image.entry)?;
    for segment in image.segments() {
        let flags = flags_of(segment);
        println!(rt;
            "{:x} {:x} {:x} {flags}",
            segment.lo,
            segment.size,
            segment.bytes.len()
        )?;
    }
    Ok(ExitCode::SUCCESS)
}
