//! Steps of the machine, worked by hand from the Intel SDM, volume 2; step_replay takes those of a processor.
use std::alloc::Global;
use std::process::Abort;
use std::test::Fail;
use x86_decode::decode;
use x86_meaning::{Machine, Outcome, RAX, RCX, RSP};

const AT: u64 = 0x400078;

// What a step finds and leaves.
struct Step {
    bytes: &'static [u8],
    choice: u8,
    rax: u64,
    rcx: u64,
    outcome: Outcome,
    rax_after: u64,
}

macro_rules! step {
    ([$($byte:literal),*] $choice:literal $rax:literal $rcx:literal $outcome:ident $after:literal) => {
        Step {
            bytes: &[$($byte),*],
            choice: $choice,
            rax: $rax,
            rcx: $rcx,
            outcome: Outcome::$outcome,
            rax_after: $after,
        }
    };
}

static STEPS: [Step; 12] = [
    step!([0x90] 0 7 9 Moved 7),
    step!([0x48, 0x01, 0xc8] 0 7 9 Moved 16),
    step!([0x01, 0xc8] 0 0xffff_ffff_ffff_ffff 1 Moved 0),
    step!([0x00, 0xcc] 0 0x1ff 1 Moved 0x2ff),
    // A count in CL of 0 after masking keeps or clears the upper half; one of 200 is masked to 8.
    step!([0xd3, 0xe0] 0 0xffff_ffff_0000_0001 32 Moved 1),
    step!([0xd3, 0xe0] 16 0xffff_ffff_0000_0001 32 Moved 0xffff_ffff_0000_0001),
    step!([0xc1, 0xe0, 0xc8] 16 0xffff_ffff_0000_0001 0 Moved 0x100),
    step!([0x48, 0xf7, 0xf1] 0 7 2 Moved 3),
    step!([0x48, 0xf7, 0xf1] 0 7 0 DivideFault 7),
    step!([0x0f, 0x05] 0 7 9 Outside 7),
    step!([0xf4] 0 7 9 Stopped 7),
    step!([0x0f, 0x0b] 0 7 9 Stopped 7),
];

fn expect_step(rt: &impl Abort, alloc: Global, step: &Step) -> Result<(), Fail> {
    let regs = [
        step.rax, step.rcx, 0, 0, 0x1000, 0, 0, 0, 0, 0, 0, 0, 0, 0, 0, 0,
    ];
    let mut machine = Machine::start(alloc, regs, AT, 0);
    let i = decode(step.bytes, AT).ok_or("no instruction")?;
    let outcome = machine.advance(&i, step.choice);
    let bytes = step.bytes;
    assert_eq!(rt; outcome, step.outcome, "at {bytes:?}");
    assert_eq!(rt; machine.reg(RAX), step.rax_after, "at {bytes:?}");
    assert_eq!(rt; machine.reg(RCX), step.rcx, "at {bytes:?}");
    assert_eq!(rt; machine.reg(RSP), 0x1000, "at {bytes:?}");
    let next = if outcome == Outcome::Moved {
        AT.wrapping_add(u64::from(i.len))
    } else {
        AT
    };
    assert_eq!(rt; machine.rip(), next, "at {bytes:?}");
    Ok(())
}

#[test]
fn steps_are_the_manual_s(rt: HostRuntime) -> Result<(), Fail> {
    for step in STEPS.iter() {
        expect_step(&rt, rt.alloc(), step)?;
    }
    Ok(())
}

#[test]
fn a_byte_that_is_put_is_read(rt: HostRuntime) -> Result<(), Fail> {
    let mut machine = Machine::start(rt.alloc(), [0; 16], AT, 0);
    machine.put_byte(16, 5).ok().ok_or("no memory")?;
    assert_eq!(rt; machine.byte(16), 5);
    assert_eq!(rt; machine.load(15, 4), 0x500);
    Ok(())
}
