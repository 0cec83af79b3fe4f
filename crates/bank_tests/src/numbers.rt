ghost use Rattle.std.specs.Prelude.{◌<◌};

use std::alloc::Global;
use std::test::Fail;
use sym_terms::{Sym, Term};
use term_bank::{Bank, InternBank, PlainBank};

fn put_register<B: Bank>(alloc: Global, bank: &mut B, r: u8) -> Result<u64, Fail>
    requires { r < 16 }
{
    let term = Term::symbol(alloc, Sym::Entry(r))?;
    let number = bank.put(term)?;
    Ok(number)
}

// The numbers of rax0, rcx0 and rax0 once more are 0, 1 and 0.
fn expect_numbers<B: Bank>(alloc: Global, bank: &mut B) -> Result<(), Fail> {
    let rax = put_register(alloc, bank, 0)?;
    let rcx = put_register(alloc, bank, 1)?;
    let again = put_register(alloc, bank, 0)?;
    if rax != 0 || rcx != 1 || again != 0 || bank.len() != 2 {
        return Err("other numbers".into());
    }
    Ok(())
}

#[test]
fn a_term_that_is_put_again_has_its_number(rt: HostRuntime) -> Result<(), Fail> {
    let alloc = rt.alloc();
    expect_numbers(alloc, &mut PlainBank::new(alloc))?;
    expect_numbers(alloc, &mut InternBank::new(alloc))
}
