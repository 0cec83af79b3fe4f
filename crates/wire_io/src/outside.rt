// The outside as two traits: named files to read, and a stream to write.
ghost use Rattle.std.specs.Prelude.{◌≡◌, ◌<◌, ◌≤◌, List, ℕ, length, take, IfOk, OnErr, Ok};
ghost use Rattle.std.specs.declared.option.Option.{Option};
ghost use Rattle.wire_io.specs.Counts.{Rose};
ghost use Rattle.wire_io.specs.Shelf.{GivesPiece, GoesOn};
ghost use Rattle.wire_io.specs.Sink.{Grows, KeepsRoom};

use crate::Failed;

/// Files by their names.
pub trait Shelf {
    /// The bytes under a name, where they are told.
    ghost file: { Self → List ℕ → Option (List ℕ) };

    /// How often a read of a name has failed; one number may serve all names.
    ghost faults: { Self → List ℕ → ℕ };

    /// Reads bytes of the file `name` from the byte `place` on into the front of `into`, and gives
    /// how many came: 0 for a piece that isn't empty only at the file's end. A name that isn't
    /// there is `Failed`.
    fn read_at(&mut self, name: &str, place: u64, into: &mut [u8]) -> Result<u64, Failed>
        ensures piece { IfOk result (GivesPiece (file self.old name.now) place into.old into.new) }
        ensures failed { OnErr result (Rose (faults self.old name.now) (faults self.new name.now)) }
        ensures shelf { GoesOn (file self.old) (file self.new) (faults self.old) (faults self.new) };
}

/// A stream to write to.
pub trait Sink {
    /// The bytes written so far, where they are told.
    ghost written: { Self → Option (List ℕ) };

    /// How often a write has failed.
    ghost faults: { Self → ℕ };

    /// How often a write of a piece that isn't empty took nothing.
    ghost stalls: { Self → ℕ };

    /// The most bytes that it ever holds, where that is told.
    ghost room: { Self → Option ℕ };

    /// Appends the front of `piece`, and gives how many bytes of it were taken. `Failed` takes none.
    fn put(&mut self, piece: &[u8]) -> Result<u64, Failed>
        ensures fits { IfOk result (λ n. n ≤ length piece.now) }
        ensures ok { IfOk result (λ n. Grows (written self.old) (written self.new) (take n piece.now)) }
        ensures failed { OnErr result (Rose (faults self.old) (faults self.new)) }
        ensures stalled { result ≡ Ok 0 → 0 < length piece.now → Rose (stalls self.old) (stalls self.new) }
        // What an error leaves, and what every call keeps.
        ensures err { OnErr result (written self.new ≡ written self.old) }
        ensures room { KeepsRoom (room self.old) (room self.new) (stalls self.old) (stalls self.new) (written self.new) }
        ensures later { faults self.old ≤ faults self.new }
        ensures stalls_later { stalls self.old ≤ stalls self.new };
}
