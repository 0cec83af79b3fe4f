// How a segment's flags are printed.
ghost use Rattle.std.specs.Prelude.{◌≡◌, ◌++◌, codes, if◌then◌else◌};

use elf_image::Segment;

/// `x` where it is executable and `w` where it is writable, `-` in the place of either that it is not.
pub(crate) fn flags_of(segment: &Segment) -> &'static str
    ensures { result.now ≡ (if segment.now.exec then codes "x" else codes "-") ++ (if segment.now.write then codes "w" else codes "-") }
{
    match (segment.exec, segment.write) {
        (true, true) => "xw",
        (true, false) => "x-",
        (false, true) => "-w",
        (false, false) => "--",
    }
}
