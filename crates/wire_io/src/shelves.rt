// Files in memory: one shelf fails as it is told to, and the quiet one never.
ghost use Rattle.std.specs.Prelude.{◌≡◌, ◌⊎◌, ◌↔◌, ◌≤◌, Contains, length, IfOk, IfSome, OnErr, IsErr, IsNone, Ok, Some, is_err, find, string_bytes};
ghost use Rattle.std.specs.Option.{option_copied};
ghost use Rattle.std.specs.Str.{bytes_eq};
ghost use Rattle.wire_io.specs.Counts.{Rose};
ghost use Rattle.wire_io.specs.Shelf.{GivesPiece, GoesOn};
ghost use Rattle.wire_io.specs.Files.{plain_files, file_under, file_or_empty, given, after_read};

use crate::{Failed, Shelf};
use std::marker::Model;

/// Files in memory. A read fails exactly where its number, counted from 0, is among the failing
/// ones or the name is unknown; one number counts the faults of all names.
#[derive(Drop)]
pub struct MemShelf {
    files: Vec<(String, Vec<u8>)>,
    step: u64,
    failing: Vec<u64>,
    calls: u64,
    faults: u64,
}

impl Model for MemShelf {
    ghost use Rattle.std.specs.Prelude.{◌≤◌};
    ghost use Rattle.wire_io.specs.Files.{ShelfState, plain_files};

    ghost Value = { ShelfState };

    ghost view = { λ s. record {
      files = plain_files s.files.items;
      step = s.step;
      failing = s.failing.items;
      calls = s.calls;
      faults = s.faults;
    } };

    ghost invariant = { λ s. 1 ≤ s.step };
}

impl MemShelf {
    /// A shelf of names with their bytes, of which the first pair of a name counts. One read gives
    /// at most `step` bytes, and the reads with a number in `failing` fail.
    pub fn new(files: Vec<(String, Vec<u8>)>, step: u64, failing: Vec<u64>) -> MemShelf
        requires { 1 ≤ step }
        ensures { result ≡ record {
          files = plain_files files.items;
          step = step;
          failing = failing.items;
          calls = 0;
          faults = 0;
        } }
    {
        MemShelf {
            files,
            step,
            failing,
            calls: 0,
            faults: 0,
        }
    }
}

impl Shelf for MemShelf {
    ghost file = { λ s name. file_under s.files name };

    ghost faults = { λ s _. s.faults };

    fn read_at(&mut self, name: &str, place: u64, into: &mut [u8]) -> Result<u64, Failed>
        ensures piece { IfOk result (GivesPiece (file_under self.old.files name.now) place into.old into.new) }
        ensures failed { OnErr result (Rose self.old.faults self.new.faults) }
        ensures shelf { GoesOn (λ n. file_under self.old.files n) (λ n. file_under self.new.files n) (λ _. self.old.faults) (λ _. self.new.faults) }
        // Exactly when it fails, how many bytes come, and what it leaves.
        ensures exact { IsErr result ↔ (Contains self.old.failing self.old.calls ⊎ IsNone (file_under self.old.files name.now)) }
        ensures count { IfOk result (λ n. IfSome (file_under self.old.files name.now) (λ file. n ≡ given self.old.step place file (length into.old))) }
        ensures after { self.new ≡ after_read self.old (is_err result) }
        ensures unchanged { OnErr result (into.new ≡ into.old) }
    {
        let number = self.calls;
        self.calls = number.saturating_add(1);
        if self.failing.contains(&number) {
            self.faults = self.faults.saturating_add(1);
            return Err(Failed);
        }
        match find_file(&self.files, name) {
            Some(file) => Ok(give(file, place, self.step, into)),
            None => {
                self.faults = self.faults.saturating_add(1);
                Err(Failed)
            }
        }
    }
}

/// Files in memory whose reads never fail. An unknown name is the empty file.
#[derive(Drop)]
pub struct QuietShelf {
    files: Vec<(String, Vec<u8>)>,
    step: u64,
}

impl Model for QuietShelf {
    ghost use Rattle.std.specs.Prelude.{◌≤◌};
    ghost use Rattle.wire_io.specs.Files.{QuietShelfState, plain_files};

    ghost Value = { QuietShelfState };

    ghost view = { λ s. record { files = plain_files s.files.items; step = s.step } };

    ghost invariant = { λ s. 1 ≤ s.step };
}

impl QuietShelf {
    /// A shelf of names with their bytes, of which the first pair of a name counts. One read gives
    /// at most `step` bytes.
    pub fn new(files: Vec<(String, Vec<u8>)>, step: u64) -> QuietShelf
        requires { 1 ≤ step }
        ensures { result ≡ record { files = plain_files files.items; step = step } }
    {
        QuietShelf { files, step }
    }
}

impl Shelf for QuietShelf {
    ghost file = { λ s name. Some (file_or_empty s.files name) };

    ghost faults = { λ _ _. 0 };

    fn read_at(&mut self, name: &str, place: u64, into: &mut [u8]) -> Result<u64, Failed>
        ensures piece { IfOk result (GivesPiece (Some (file_or_empty self.old.files name.now)) place into.old into.new) }
        ensures failed { OnErr result (Rose 0 0) }
        ensures shelf { GoesOn (λ n. Some (file_or_empty self.old.files n)) (λ n. Some (file_or_empty self.new.files n)) (λ _. 0) (λ _. 0) }
        // How many bytes come, and what it leaves.
        ensures count { result ≡ Ok (given self.old.step place (file_or_empty self.old.files name.now) (length into.old)) }
        ensures after { self.new ≡ self.old }
    {
        match find_file(&self.files, name) {
            Some(file) => Ok(give(file, place, self.step, into)),
            None => Ok(0),
        }
    }
}

// The bytes of the first pair with the name.
fn find_file<'a>(files: &'a [(String, Vec<u8>)], name: &str) -> Option<&'a [u8]>
    ensures { option_copied result ≡ file_under (plain_files files.now) name.now }
{
    match find_pair(files, name) {
        Some(pair) => Some(pair.1.as_slice()),
        None => None,
    }
}

// The first pair with the name.
fn find_pair<'a>(files: &'a [(String, Vec<u8>)], name: &str) -> Option<&'a (String, Vec<u8>)>
    ensures { option_copied result ≡ find (λ pair. bytes_eq (string_bytes pair.0) name.now) files.now }
{
    files.iter().find(|pair| pair.0.as_str() == name)
}

// Puts the bytes of a file from a place on into the front of a piece, at most a step of them.
fn give(file: &[u8], place: u64, step: u64, into: &mut [u8]) -> u64
    requires { 1 ≤ step }
    ensures count { result ≡ given step place file.now (length into.old) }
    ensures piece { GivesPiece (Some file.now) place into.old into.new result }
{
    if place >= file.len() as u64 {
        return 0;
    }
    let (_, rest) = file.split_at(place as usize);
    let count = rest.len().min(into.len()).min(step as usize);
    into[..count].copy_from_slice(&rest[..count]);
    count as u64
}
