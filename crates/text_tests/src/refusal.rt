use graph_text::{TextCause, read_graph};
use std::alloc::Global;

/// The faulty line of a text that is refused, and its cause.
pub(crate) fn fault(alloc: Global, text: &[u8]) -> Option<(u64, TextCause)> {
    match read_graph(alloc, text) {
        Ok(_) => None,
        Err(refusal) => Some((refusal.line, refusal.cause)),
    }
}
