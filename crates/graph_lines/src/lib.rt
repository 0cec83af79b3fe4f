//! The lines of a graph's text: each has one spelling, and what is no line has a first cause. A line is read and
//! written alone; what may follow what is not looked at here.
#![tactic(auto)]

mod entry_value;
mod fields;
mod line;
mod line_kind;
mod parts;
mod plain;
mod plain_writing;
mod reading;
mod term_reading;
mod term_writing;
mod words;
mod writing;

pub use entry_value::is_entry_value;
pub use line::{Line, SiteLine, VertexLine};
pub use line_kind::{LineKind, SiteLineKind, VertexLineKind, kind_of_bytes};
pub use plain_writing::{
    put_edges_line, put_end_line, put_function_line, put_refused_line, put_site_line,
    put_vertex_line, reason_text,
};
pub use reading::{read_line, read_line_of_kind};
pub use term_text::TextCause;
pub use term_writing::{
    put_bound_line, put_fact_line, put_fork_line, put_given, put_keep_line, put_node_line,
    put_pair_line, put_region,
};
pub use words::split_at;
pub use writing::put_line;
