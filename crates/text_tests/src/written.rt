use graph_data::Function;
use graph_text::{read_graph, write_function};
use std::alloc::Global;

static GRAPH: &[u8] =
    b"foxdec graph 1\nf 400078 65536 4096\ns 400078 ret\nv 0\nc [rsp0;8]=ra\nx 400079 notcode\nend\n";

static FIRST: &[u8] = b"f 400078 65536 4096\ns 400078 ret\nv 0\nc [rsp0;8]=ra\n";

static LAST: &[u8] = b"x 400079 notcode\n";

fn is_written_as(alloc: Global, function: &Function, text: &[u8]) -> bool {
    match write_function(alloc, function) {
        Ok(written) => written.as_slice() == text,
        Err(_) => false,
    }
}

fn are_written_alone(alloc: Global, functions: &[Function]) -> bool {
    match functions {
        [first, last] => is_written_as(alloc, first, FIRST) && is_written_as(alloc, last, LAST),
        _ => false,
    }
}

#[test]
fn a_function_is_written_alone(rt: HostRuntime) {
    let is_so = match read_graph(rt.alloc(), GRAPH) {
        Ok(graph) => are_written_alone(rt.alloc(), graph.functions.as_slice()),
        Err(_) => false,
    };
    assert!(rt; is_so);
}
