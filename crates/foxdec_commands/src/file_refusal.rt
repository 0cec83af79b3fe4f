// Why the file of an executable is refused.
ghost use Rattle.std.specs.Prelude.{◌≡◌};
ghost use Rattle.foxdec_commands.specs.FileRefusal.{refusal_name, refusal_number};

use elf_image::ElfRefusal;

/// Why a file is refused as an executable.
#[derive(Clone, Copy, Debug, PartialEq, Eq)]
pub enum FileRefusal {
    /// It has more bytes than are read.
    TooLong,
    /// The reader's refusal.
    Elf(ElfRefusal),
}

impl FileRefusal {
    pub fn name(self) -> &'static str
        ensures { result.now ≡ refusal_name self }
    {
        match self {
            FileRefusal::TooLong => "TooLong",
            FileRefusal::Elf(refusal) => refusal.name(),
        }
    }

    pub fn number(self) -> u8
        ensures { result ≡ refusal_number self }
    {
        match self {
            FileRefusal::TooLong => 16,
            FileRefusal::Elf(refusal) => refusal.number(),
        }
    }
}
