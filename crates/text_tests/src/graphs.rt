// The texts are written out by hand from the description of the format.
use crate::refusal::fault;
use graph_data::Graph;
use graph_text::{TextCause, read_graph, write_graph};
use std::alloc::Global;

/// Graphs with every kind of line, parted by the line that ends each.
static GRAPHS: &str = "foxdec graph 1
f 400078 65536 4096
s 400078 ret
v 0
c [rsp0;8]=ra
end
foxdec graph 1
f 400078 65536 4096
s 400078 step
v 0
c [rsp0;8]=ra
> 400082:0
s 400082 ret
v 0
r rax=-1
c [rsp0;8]=ra
end
foxdec graph 1
f 400078 65536 4096
s 400078 step
v 0
c [rsp0;8]=ra
> 400079:0
s 400079 step
v 0
r rsp=rsp0-8
c [rsp0;8]=ra
c [rsp0-8;8]=rbx0
> 40007a:0
s 40007a ret
v 0
c [rsp0;8]=ra
c [rsp0-8;8]=rbx0
end
foxdec graph 1
f 400078 65536 4096
s 400078 step
v 0
c [rsp0;8]=ra
> 400079:0
s 400079 end badreturn
v 0
r rsp=rsp0-8
c [rsp0;8]=ra
c [rsp0-8;8]=rbx0
end
foxdec graph 1
f 400078 65536 4096
s 400078 step
p [rdi0;8] [rsp0;8]
v 0
c [rsp0;8]=ra
> 40007b:0
s 40007b ret
v 0
c [rsp0;8]=ra
c [rdi0;8]=rsi0
end
foxdec graph 1
f 400078 65536 4096
s 400078 step
v 0
c [rsp0;8]=ra
> 400079:0
s 400079 step
v 0
r rsp=rsp0-8
c [rsp0;8]=ra
c [rsp0-8;8]=rbx0
> 40007b:0
s 40007b step
v 0
r rbx=? rsp=rsp0-8
c [rsp0;8]=ra
c [rsp0-8;8]=rbx0
> 40007d:0
s 40007d step
v 0
r rbx=v40007b rsp=rsp0-8
c [rsp0;8]=ra
c [rsp0-8;8]=rbx0
> 400080:0
s 400080 step
v 0
r rbx=v40007b rsp=rsp0-8
z 32 zx32(v40007b) 10
c [rsp0;8]=ra
c [rsp0-8;8]=rbx0
> 40007b:0 400082:0
s 400082 step
v 0
r rbx=v40007b rsp=rsp0-8
z 32 zx32(v40007b) 10
b zx32(v40007b) 10..10
c [rsp0;8]=ra
c [rsp0-8;8]=rbx0
> 400083:0
s 400083 ret
v 0
z 32 zx32(v40007b) 10
b zx32(v40007b) 10..10
c [rsp0;8]=ra
c [rsp0-8;8]=rbx0
end
foxdec graph 1
f 400078 65536 4096
s 400078 call 400078
k [rsp0;8]
v 0
c [rsp0;8]=ra
> 40007d:0
s 40007d ret
v 0
r rax=v400078 rcx=? rdx=? rsi=? rdi=? r8=? r9=? r10=? r11=?
c [rsp0;8]=ra
c [rsp0-8;8]
end
foxdec graph 1
f 400078 65536 4096
s 400078 outside
k [rsp0;8]
v 0
c [rsp0;8]=ra
> 40007a:0
s 40007a ret
v 0
r rax=v400078 rcx=? r11=?
c [rsp0;8]=ra
end
foxdec graph 1
f 400078 65536 4096
s 400078 outside
k [rsp0;8]
v 0
c [rsp0;8]=ra
> 40007d:0
s 40007d ret
v 0
r rax=v400078 rcx=? rdx=? rsi=? rdi=? r8=? r9=? r10=? r11=?
c [rsp0;8]=ra
c [rsp0-8;8]
end
foxdec graph 1
f 400078 65536 4096
s 400078 step
v 0
c [rsp0;8]=ra
> 400079:0
s 400079 step
v 0
c [rsp0;8]=ra
> 40007b:0
s 40007b ret
v 0
r rax=zx32(zx32(rax0)+1)
c [rsp0;8]=ra
end
foxdec graph 1
x 400079 notcode
end
foxdec graph 1
f 400078 65536 4096
s 400078 step
v 0
c [rsp0;8]=ra
> 400078:1
v 1
c [rsp0;8]=ra
> 400078:1
end
foxdec graph 1
f 400078 65536 4096
s 400078 step
v 0
c [rsp0;8]=ra
> 40007a:0
s 40007a step
v 0
r rcx=0
z 32 0 0
c [rsp0;8]=ra
> 40007c:0
s 40007c ret
v 0
r rax=v40007a rcx=0
c [rsp0;8]=ra
end
foxdec graph 1
f 400078 65536 4096
s 400078 step
p [rdi0;1] [rsp0;8]
v 0
c [rsp0;8]=ra
> 40007a:0
s 40007a ret
v 0
r rax=v400078
c [rsp0;8]=ra
c [rdi0;1]=zx8(rax0)
end
foxdec graph 1
end
";

/// A graph with every kind of line; its lines are numbered by the cases below.
pub(crate) static WHOLE: &str = "foxdec graph 1
f 400078 65536 4096
s 400078 step
p [rdi0;8] [rsp0;8]
p [rsp0-8;8] [rsp0;8]
g [rdi0;8] [rsi0;8]
v 0
c [rsp0;8]=ra
> 40007b:0 40007b:1
s 40007b call 400090
k [rsp0;8]
k [rsp0-8;8]
v 0
r rax=and(rax0,0xff0000)+5 rbx=? rsp=rsp0-8
z 32 zx32(v400078) 10
b zx32(v400078) 0..9
b v400078+0x400090 {0x400086,0x400087}
c [rdx0|rdi0;8]=rsi0
c .[rdi0;4]=zx32(rsi0)
c [rsp0;8]=ra
> 400080:0
v 1
c [rsp0;8]=ra
> 400080:0
s 400080 ret
v 0
c [rsp0;8]=ra
s 400081 end unresolved
v 0
f 400090 0 0
s 400090 outside
v 0
> 400092:0
x 400098 notcode
end
";

fn is_written_as(alloc: Global, graph: &Graph, text: &[u8]) -> bool {
    match write_graph(alloc, graph) {
        Ok(written) => written.as_slice() == text,
        Err(_) => false,
    }
}

/// Whether a text is read, and written back byte for byte.
fn is_written_back(alloc: Global, text: &[u8]) -> bool {
    match read_graph(alloc, text) {
        Ok(graph) => is_written_as(alloc, &graph, text),
        Err(_) => false,
    }
}

/// The first of the graphs that isn't written back.
fn first_other(alloc: Global, graphs: &'static str) -> Option<&'static str> {
    for text in graphs.split_inclusive("end\n") {
        if !is_written_back(alloc, text.as_bytes()) {
            return Some(text);
        }
    }
    None
}

#[test]
fn graphs_are_written_back_byte_for_byte(rt: HostRuntime) {
    assert_eq!(rt; first_other(rt.alloc(), GRAPHS), None);
    assert!(rt;
        is_written_back(rt.alloc(), WHOLE.as_bytes()),
        "every kind of line"
    );
}

/// The length of the first proper prefix that doesn't miss its end in its last line.
fn first_ended_prefix(alloc: Global, text: &[u8]) -> Option<usize> {
    let mut line = 1u64;
    for length in 0..text.len() {
        if fault(alloc, &text[..length]) != Some((line, TextCause::Unended)) {
            return Some(length);
        }
        line = line.saturating_add(u64::from(text[length] == b'\n'));
    }
    None
}

#[test]
fn each_proper_prefix_misses_its_end(rt: HostRuntime) {
    assert_eq!(rt; first_ended_prefix(rt.alloc(), WHOLE.as_bytes()), None);
}

#[test]
fn a_carriage_return_is_no_byte_of_a_line(rt: HostRuntime) {
    let text = b"foxdec graph 1\nf 400078 65536 4096\r\nend\n";
    assert_eq!(rt;
        fault(rt.alloc(), text.as_slice()),
        Some((2, TextCause::BadLine))
    );
}
