ghost use Rattle.std.specs.Prelude.{◌≡◌, ℕ, ◌^◌, ◌<◌, ◌≤◌, IsSome, OnErr, OnOk};
ghost use Rattle.std.specs.Ordering.{nat_cmp};
ghost use Rattle.std.specs.BTreeMap as tree;
ghost use Rattle.x86_machine.specs.Memory.{byte_of, memory_of, loaded, put_at, stored, HasBytes};

use no_memory::NoMemory;
use std::alloc::Global;
use std::collections::BTreeMap;

// The bytes of memory by their addresses; a byte that isn't there is 0.
#[derive(Drop)]
pub struct Memory {
    bytes: BTreeMap<u64, u8>,
}

impl Memory {
    #[tactic(auto, unfolding(crate::specs::Memory::memory_of))]
    pub fn new(alloc: Global) -> Memory
        ensures { memory_of result ≡ (λ at. 0) }
    {
        Memory {
            bytes: BTreeMap::new(alloc),
        }
    }

    #[tactic(auto, unfolding(crate::specs::Memory::memory_of))]
    pub fn byte(&self, at: u64) -> u8
        ensures { result ≡ memory_of self.now at }
    {
        self.bytes.get(&at).copied().unwrap_or(0)
    }

    // The number in `n` bytes, the lowest first.
    #[tactic(auto, unfolding(crate::specs::Memory::loaded))]
    pub fn load(&self, at: u64, n: u8) -> u64
        requires { n ≤ 8 }
        ensures value { result ≡ loaded (memory_of self.now) n at }
        ensures below { result < 256 ^ n }
    {
        if n == 0 {
            return 0;
        }
        u64::from(self.byte(at)) + 256 * self.load(at.wrapping_add(1), n - 1)
    }

    #[tactic(auto, unfolding(crate::specs::Memory::memory_of))]
    pub fn put(&mut self, at: u64, b: u8) -> Result<(), NoMemory>
        ensures ok { OnOk result (memory_of self.new ≡ put_at (memory_of self.old) at b) }
        ensures err { OnErr result (memory_of self.new ≡ memory_of self.old) }
    {
        match self.bytes.insert(at, b) {
            Ok(_) => Ok(()),
            Err(_) => Err(NoMemory),
        }
    }

    // Puts the low `n` bytes of `value`, the lowest first, all or none.
    #[tactic(auto, unfolding(crate::specs::Memory::memory_of))]
    pub fn store(&mut self, at: u64, n: u8, value: u64) -> Result<(), NoMemory>
        ensures ok { OnOk result (memory_of self.new ≡ stored (memory_of self.old) n at value) }
        ensures err { OnErr result (memory_of self.new ≡ memory_of self.old) }
    {
        hold(&mut self.bytes, at, n)?;
        write(&mut self.bytes, at, n, value);
        Ok(())
    }
}

// Makes room for `n` bytes without a change of their values.
fn hold(bytes: &mut BTreeMap<u64, u8>, at: u64, n: u8) -> Result<(), NoMemory>
    ensures same { byte_of bytes.new ≡ byte_of bytes.old }
    ensures held { OnOk result (HasBytes bytes.new n at) }
{
    if n == 0 {
        return Ok(());
    }
    hold(bytes, at.wrapping_add(1), n - 1)?;
    hold_byte(bytes, at)
}

fn hold_byte(bytes: &mut BTreeMap<u64, u8>, at: u64) -> Result<(), NoMemory>
    ensures same { byte_of bytes.new ≡ byte_of bytes.old }
    ensures held { OnOk result (IsSome (tree.get nat_cmp bytes.new at)) }
    ensures keeps { (q : ℕ) → IsSome (tree.get nat_cmp bytes.old q) → IsSome (tree.get nat_cmp bytes.new q) }
{
    if bytes.contains_key(&at) {
        return Ok(());
    }
    match bytes.insert(at, 0) {
        Ok(_) => Ok(()),
        Err(_) => Err(NoMemory),
    }
}

// Writes over `n` bytes that are there.
#[tactic(auto, using(crate::proofs::MemoryLemmas::has_first, crate::proofs::MemoryLemmas::still_has), unfolding(crate::specs::Memory::stored))]
fn write(bytes: &mut BTreeMap<u64, u8>, at: u64, n: u8, value: u64)
    requires { HasBytes bytes.old n at }
    ensures { byte_of bytes.new ≡ stored (byte_of bytes.old) n at value }
{
    if n == 0 {
        return;
    }
    write_byte(bytes, at, (value % 256) as u8);
    write(bytes, at.wrapping_add(1), n - 1, value / 256);
}

fn write_byte(bytes: &mut BTreeMap<u64, u8>, at: u64, b: u8)
    requires { IsSome (tree.get nat_cmp bytes.old at) }
    ensures value { byte_of bytes.new ≡ put_at (byte_of bytes.old) at b }
    ensures keeps { (q : ℕ) → IsSome (tree.get nat_cmp bytes.old q) → IsSome (tree.get nat_cmp bytes.new q) }
{
    let _ = bytes.insert(at, b);
}
