use elf_image::read_elf;
use graph_text::read_graph;
use image_maker::make_image;
use report::report;
use std::alloc::Global;
use std::process::Abort;
use std::test::Fail;

// An executable with this code from 400078 on: the headers of the image without functions, with the
// two sizes of the segment.
fn base_file(rt: &impl Abort, alloc: Global, code: &[u8]) -> Result<Vec<u8>, Fail> {
    let mut file = make_image(alloc, 0)?;
    file.truncate(120);
    file.extend_from_slice(code)?;
    assert!(rt; 120 <= file.len());
    let size = file.len() as u64;
    file[96..104].copy_from_slice(&size.to_le_bytes());
    file[104..112].copy_from_slice(&size.to_le_bytes());
    Ok(file)
}

fn expect_report(
    rt: &impl Abort,
    alloc: Global,
    code: &[u8],
    graph: &str,
    expected: &str,
) -> Result<(), Fail> {
    let file = base_file(rt, alloc, code)?;
    let image = read_elf(alloc, &file)?;
    let graph = read_graph(alloc, graph.as_bytes())?;
    let text = report(alloc, &image, &graph)?;
    assert_eq!(rt; str::from_utf8(&text)?, expected);
    Ok(())
}

// A compiled program: endbr64, a stack protector, a loop, two calls and a switch.
const PROGRAM: [u8; 120] = [
    0xF3, 0x0F, 0x1E, 0xFA, 0x53, 0x48, 0x83, 0xEC, 0x10, 0x64, 0x48, 0x8B, 0x04, 0x25, 0x28, 0, 0,
    0, 0x48, 0x89, 0x44, 0x24, 0x08, 0x31, 0xDB, 0xE8, 0x35, 0, 0, 0, 0xFF, 0xC3, 0x83, 0xFB, 0x03,
    0x75, 0xF4, 0x83, 0xF8, 0x02, 0x77, 0x0D, 0x89, 0xC0, 0xFF, 0x24, 0xC5, 0xD8, 0, 0x40, 0, 0x31,
    0xC0, 0xFF, 0xC0, 0x48, 0x8B, 0x54, 0x24, 0x08, 0x64, 0x48, 0x2B, 0x14, 0x25, 0x28, 0, 0, 0,
    0x75, 0x06, 0x48, 0x83, 0xC4, 0x10, 0x5B, 0xC3, 0xE8, 0x07, 0, 0, 0, 0xF4, 0xB8, 0x02, 0, 0, 0,
    0xC3, 0xF4, 0xCC, 0xCC, 0xCC, 0xCC, 0xCC, 0xCC, 0xAB, 0, 0x40, 0, 0, 0, 0, 0, 0xAD, 0, 0x40, 0,
    0, 0, 0, 0, 0xAF, 0, 0x40, 0, 0, 0, 0, 0,
];

// Its sites, with the predicates that a graph needs least.
const PROGRAM_GRAPH: &str = "foxdec graph 1
f 400078 65536 4096
s 400078 step
v 0
> 40007c:0
s 40007c step
v 0
> 40007d:0
s 40007d step
v 0
> 400081:0
s 400081 step
v 0
> 40008a:0
s 40008a step
v 0
> 40008f:0
s 40008f step
v 0
> 400091:0
s 400091 call 4000cb
k [rsp0;8]
k [rsp0-8;8]
v 0
> 400096:0
s 400096 step
v 0
> 400098:0
s 400098 step
v 0
> 40009b:0
s 40009b step
v 0
> 400091:0 40009d:0
s 40009d step
v 0
> 4000a0:0
s 4000a0 step
v 0
> 4000af:0 4000a2:0
s 4000a2 step
v 0
> 4000a4:0
s 4000a4 step
v 0
> 4000ab:0 4000ad:0 4000af:0
s 4000ab step
v 0
> 4000ad:0
s 4000ad step
v 0
> 4000af:0
s 4000af step
v 0
> 4000b4:0
s 4000b4 step
v 0
> 4000bd:0
s 4000bd step
v 0
> 4000c5:0 4000bf:0
s 4000bf step
v 0
> 4000c3:0
s 4000c3 step
v 0
> 4000c4:0
s 4000c4 ret
v 0
s 4000c5 call 4000d1
k [rsp0;8]
k [rsp0-8;8]
v 0
> 4000ca:0
s 4000ca end stop
v 0
f 4000cb 65536 4096
s 4000cb step
v 0
> 4000d0:0
s 4000d0 ret
v 0
f 4000d1 65536 4096
s 4000d1 end stop
v 0
end
";

// The text is worked out by hand from what a report is to say.
const PROGRAM_REPORT: &str = "foxdec report
entry 400078
functions 3
sites 27
vertices 27
covered 90 of 240
function 400078 frame 65536 4096 sites 24 vertices 24
keep 400091 [rsp0;8]
keep 400091 [rsp0-8;8]
return 4000c4
keep 4000c5 [rsp0;8]
keep 4000c5 [rsp0-8;8]
end 4000ca stop
function 4000cb frame 65536 4096 sites 2 vertices 2
return 4000d0
function 4000d1 frame 65536 4096 sites 1 vertices 1
end 4000d1 stop
";

#[test]
fn a_compiled_program_is_reported(rt: HostRuntime) -> Result<(), Fail> {
    expect_report(&rt, rt.alloc(), &PROGRAM, PROGRAM_GRAPH, PROGRAM_REPORT)
}

#[test]
fn assumptions_and_ends_are_reported(rt: HostRuntime) -> Result<(), Fail> {
    // mov [rdi], rsi; syscall; ret
    let code = [0x48, 0x89, 0x37, 0x0F, 0x05, 0xC3];
    let graph = "foxdec graph 1
f 400078 65536 4096
s 400078 step
p [rdi0;8] [rsp0;8]
g [rdi0;8] [rdx0;8]
v 0
> 40007b:0
s 40007b outside
k [rsp0;8]
v 0
> 40007d:0
v 1
> 40007d:0
s 40007d ret
v 0
x 500000 notcode
end
";
    let text = "foxdec report
entry 400078
functions 1
sites 3
vertices 4
covered 6 of 126
function 400078 frame 65536 4096 sites 3 vertices 4
sep 400078 [rdi0;8] [rsp0;8]
fork 400078 [rdi0;8] [rdx0;8]
keep 40007b [rsp0;8]
outside 40007b syscall
return 40007d
refused 500000 notcode
";
    expect_report(&rt, rt.alloc(), &code, graph, text)
}

#[test]
fn a_graph_that_does_not_fit_is_reported(rt: HostRuntime) -> Result<(), Fail> {
    // One site lies in no segment, one begins inside the first one's instruction, one at the end.
    let code = [0x48, 0x89, 0x37, 0xC3];
    let graph = "foxdec graph 1
f 1 0 8
s 1 outside
v 0
> 6:0
s 400078 end unresolved
v 0
s 400079 end badreturn
v 0
s 40007b end extern
v 0
s 40007c end unsupported
v 0
s ffffffffffffffff end stop
v 0
end
";
    let text = "foxdec report
entry 400078
functions 1
sites 6
vertices 6
covered 4 of 124
function 1 frame 0 8 sites 6 vertices 6
outside 1 call
end 400078 unresolved
end 400079 badreturn
end 40007b extern
end 40007c unsupported
end ffffffffffffffff stop
";
    expect_report(&rt, rt.alloc(), &code, graph, text)
}
