use bank_step::{cases, to_bank};
use elf_image::Image;
use std::alloc::Global;
use std::test::Fail;
use step_rows::sample::{Facts, graph, image, instruction, site_of, site_view, vertex_of};
use sym_terms::{NoMemory, Term};
use term_bank::{Bank, PlainBank};

/// A bank that counts the terms that are put.
#[derive(Drop)]
struct Counting<B> {
    bank: B,
    puts: u64,
}

impl<B: Bank> Bank for Counting<B> {
    ghost terms = { λ c. B.terms c.bank };

    ghost apart = { λ c. B.apart c.bank };

    fn put(&mut self, t: Term) -> Result<u64, NoMemory> {
        self.puts = self.puts.wrapping_add(1);
        self.bank.put(t)
    }

    fn get(&self, n: u64) -> &Term {
        self.bank.get(n)
    }

    fn len(&self) -> u64 {
        self.bank.len()
    }
}

/// An instruction, what is known before it, and how many terms of what is known after it are put.
struct Row {
    what: &'static str,
    code: &'static [u8],
    before: Facts,
    puts: u64,
}

macro_rules! row {
    ($what:literal; $code:literal; $r:literal $z:literal $b:literal $c:literal => $puts:literal) => {
        Row {
            what: $what,
            code: $code,
            before: Facts { registers: $r, flags: $z, bounds: $b, cells: $c },
            puts: $puts,
        }
    };
}

static ROWS: [Row; 12] = [
    row!("nop"; b"\x90"; "" "" "" "" => 0),
    row!("nop, much known"; b"\x90"; "rax=5 rcx=?" "64 rdi0 3" "rsi0 1..7\nb rdi0 0..9" "[rsp0;8]=ra\nc [rsp0-8;8]=rbx0" => 0),
    row!("nop, names that go"; b"\x90"; "rbx=v400078" "" "v400078 0..3" "[rsp0;8]=v400078\nc [rdi0;8]\nc [v400078;8]=5" => 0),
    row!("mov eax, 5"; b"\xb8\x05\0\0\0"; "" "" "" "[rsp0;8]=ra" => 1),
    row!("mov eax, 5, which is known"; b"\xb8\x05\0\0\0"; "rcx=5" "" "" "" => 0),
    row!("mov rax, rbx"; b"\x48\x89\xd8"; "" "" "" "[rsp0;8]=ra" => 0),
    row!("a load of a cell"; b"\x48\x8b\x04\x24"; "" "" "" "[rsp0;8]=ra" => 0),
    row!("a store to a cell"; b"\x48\x89\x04\x24"; "" "" "" "[rsp0;8]=ra\nc [rsp0+8;8]=rbx0" => 0),
    row!("a store inside a cell"; b"\x88\x04\x24"; "rax=7" "" "" "[rsp0;8]=ra" => 0),
    row!("push rbx, the register and the cell"; b"\x53"; "" "" "" "[rsp0;8]=ra" => 2),
    row!("je"; b"\x74\x05"; "" "64 rdi0 3" "" "[rsp0;8]=ra" => 0),
    row!("jmp"; b"\xeb\x05"; "rax=5" "" "" "[rsp0;8]=ra" => 0),
];

// How many terms a step puts.
fn puts_of(alloc: Global, image: &Image, row: &Row) -> Result<u64, Fail> {
    let graph = graph(alloc, "step", row.before)?;
    let view = site_view(image, site_of(&graph)?);
    let i = instruction(row.code)?;
    let mut bank = Counting {
        bank: PlainBank::new(alloc),
        puts: 0,
    };
    let numbered = to_bank(alloc, &mut bank, &vertex_of(&graph)?.pred)?;
    bank.puts = 0;
    cases(alloc, &mut bank, &view, &i, &numbered)?;
    Ok(bank.puts)
}

#[test]
fn a_step_puts_the_terms_that_it_makes(rt: HostRuntime) -> Result<(), Fail> {
    let image = image(rt.alloc())?;
    for row in &ROWS {
        if puts_of(rt.alloc(), &image, row)? != row.puts {
            return Err(row.what.into());
        }
    }
    Ok(())
}
