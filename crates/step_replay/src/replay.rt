ghost use Rattle.std.specs.Prelude.{◌≡◌, ◌≢◌, ◌↔◌, ℕ, IfSome, IsTrue, bit_and};
ghost use Rattle.x86_machine.specs.State.{State, state_of};
ghost use Rattle.step_replay.specs.Rows.{flags_digit, first_registers, Agrees, Begins, IsAt, Shows};

use crate::rows::{CELL, CODE, Goal, Recorded, Row};
use bits_core::Flags;
use no_memory::NoMemory;
use std::alloc::Global;
use x86_decode::decode;
use x86_machine::{Machine, Outcome};

// The length of what `setting` gives.
const SETTING: u64 = 33;

// All flags.
const EACH_FLAG: u8 = 15;

fn digit_of(flags: Flags) -> u8
    ensures { result ≡ flags_digit flags }
{
    let low = u8::from(flags.carry) + 2 * u8::from(flags.zero);
    low + 4 * u8::from(flags.sign) + 8 * u8::from(flags.over)
}

fn registers_of(machine: &Machine) -> [u64; 6]
    ensures { result ≡ first_registers (state_of machine.now) }
{
    [
        machine.reg(0),
        machine.reg(1),
        machine.reg(2),
        machine.reg(3),
        machine.reg(4),
        machine.reg(5),
    ]
}

// Whether the machine has what was recorded, in the flags of the mask.
fn is_shown(machine: &Machine, mask: u8, recorded: &Recorded) -> bool
    ensures { IsTrue result → Shows (state_of machine.now) mask recorded.now }
{
    registers_of(machine) == recorded.regs
        && machine.load(CELL, 8) == recorded.cell
        && digit_of(machine.flags()) & mask == recorded.flags
}

// Whether the machine is where the recorded step went.
fn is_reached(machine: &Machine, goal: &Goal) -> bool
    ensures { IsTrue result → IsAt (state_of machine.now) goal.now }
{
    is_shown(machine, goal.mask, &goal.after) && machine.rip() == goal.rip
}

// Whether a step of the machine by the instruction that begins the bytes goes where the recorded one did.
fn reaches(machine: &mut Machine, code: &[u8], choice: u8, goal: Option<Goal>) -> bool
    ensures { IsTrue result → Agrees (state_of machine.old) code.now choice goal }
{
    let Some(i) = decode(code, machine.rip()) else {
        return false;
    };
    match (machine.advance(&i, choice), goal) {
        (Outcome::DivideFault, None) => true,
        (Outcome::Moved, Some(goal)) => is_reached(machine, &goal),
        _ => false,
    }
}

// Code that leaves the flags as the choice has them and these numbers in rax, rcx and rdx: a quotient, whose flags
// are undefined, and three moves.
fn setting(alloc: Global, regs: &[u64; 6]) -> Option<Vec<u8>> {
    let mut code = Vec::from_slice(alloc, &[0x48, 0xf7, 0xf1]).ok()?;
    for (opcode, value) in [(0xb8, regs[0]), (0xb9, regs[1]), (0xba, regs[2])] {
        code.extend_from_slice(&[0x48, opcode]).ok()?;
        code.extend_from_slice(&value.to_le_bytes()).ok()?;
    }
    Some(code)
}

fn put_cell(machine: &mut Machine, cell: u64) -> Result<(), NoMemory> {
    for (k, b) in cell.to_le_bytes().iter().enumerate() {
        machine.put_byte(CELL + k as u64, *b)?;
    }
    Ok(())
}

// Takes the step at each of four places in code that stands before `CODE`.
fn set_flags_and_registers(machine: &mut Machine, code: &[u8], choice: u8) -> Option<()> {
    for at in [0, 3, 13, 23] {
        let i = decode(code.get(at..)?, machine.rip())?;
        if machine.advance(&i, choice) != Outcome::Moved {
            return None;
        }
    }
    Some(())
}

// The machine in the recorded state, with rip at CODE.
fn machine_of(alloc: Global, before: &Recorded) -> Option<Machine>
    ensures { IfSome result (λ machine. Begins (state_of machine) before.now) }
{
    let [_, _, _, rbx, rsp, rbp] = before.regs;
    let code = setting(alloc, &before.regs)?;
    let regs = [0, 1, 0, rbx, rsp, rbp, CELL, 0, 0, 0, 0, 0, 0, 0, 0, 0];
    let mut machine = Machine::start(alloc, regs, CODE - SETTING, 0);
    put_cell(&mut machine, before.cell).ok()?;
    set_flags_and_registers(&mut machine, code.as_slice(), before.flags)?;
    if is_shown(&machine, EACH_FLAG, before) && machine.rip() == CODE {
        Some(machine)
    } else {
        None
    }
}

// Whether the step with this choice goes where the recorded one did.
fn agrees(alloc: Global, row: &Row, choice: u8) -> bool
    ensures { IsTrue result → (s : State) × Begins s row.now.before × Agrees s row.now.code.items choice row.now.goal }
{
    match machine_of(alloc, &row.before) {
        Some(mut machine) => reaches(&mut machine, row.code.as_slice(), choice, row.goal),
        None => false,
    }
}

/// Whether the step goes where the recorded one did, with the upper half cleared or kept where that is undefined.
/// False also where memory is refused.
pub(crate) fn is_as_recorded(alloc: Global, row: &Row) -> bool
    ensures { IsTrue result → (s : State) × (choice : ℕ) × Begins s row.now.before × Agrees s row.now.code.items choice row.now.goal }
{
    agrees(alloc, row, 0) || agrees(alloc, row, 16)
}
