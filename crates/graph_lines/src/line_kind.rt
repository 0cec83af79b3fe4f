ghost use Rattle.std.specs.Prelude.{◌≡◌, ◌≤◌, length, IfSome};
ghost use Rattle.graph_lines.specs.LineKind.{dots as leading_dots, kind_of_letter as kind_at_letter, kind_of_bytes as kind_at_bytes};

/// The kind of a line, as it is told by how the line begins.
#[derive(Clone, Copy, Debug, PartialEq, Eq)]
pub enum LineKind {
    Function,
    Refused,
    Site,
    Vertex,
    InSite(SiteLineKind),
    InVertex(VertexLineKind),
    End,
}

/// The kind of a line of a site before its first vertex.
#[derive(Clone, Copy, Debug, PartialEq, Eq)]
pub enum SiteLineKind {
    Pair,
    Fork,
    Keep,
}

/// The kind of a line of a vertex after its own.
#[derive(Clone, Copy, Debug, PartialEq, Eq)]
pub enum VertexLineKind {
    Registers,
    Flags,
    Bound,
    /// With the number of dots, which is the level of the node below the top.
    Node(u64),
    Edges,
}

/// The kind of the line that the bytes can be: by a letter and a space before, or as the last line.
pub fn kind_of_bytes(bytes: &[u8]) -> Option<LineKind>
    ensures value { result ≡ kind_at_bytes bytes.now }
    ensures within { IfSome result (λ _. 2 ≤ length bytes.now) }
{
    match bytes {
        [letter, b' ', rest @ ..] => kind_of_letter(*letter, rest),
        [b'e', b'n', b'd'] => Some(LineKind::End),
        _ => None,
    }
}

fn kind_of_letter(letter: u8, rest: &[u8]) -> Option<LineKind>
    ensures { result ≡ kind_at_letter letter rest.now }
{
    match letter {
        b'f' => Some(LineKind::Function),
        b'x' => Some(LineKind::Refused),
        b's' => Some(LineKind::Site),
        b'p' => Some(LineKind::InSite(SiteLineKind::Pair)),
        b'g' => Some(LineKind::InSite(SiteLineKind::Fork)),
        b'k' => Some(LineKind::InSite(SiteLineKind::Keep)),
        b'v' => Some(LineKind::Vertex),
        b'r' => Some(LineKind::InVertex(VertexLineKind::Registers)),
        b'z' => Some(LineKind::InVertex(VertexLineKind::Flags)),
        b'b' => Some(LineKind::InVertex(VertexLineKind::Bound)),
        b'c' => Some(LineKind::InVertex(VertexLineKind::Node(dots(rest) as u64))),
        b'>' => Some(LineKind::InVertex(VertexLineKind::Edges)),
        _ => None,
    }
}

// How many dots stand before.
fn dots(bytes: &[u8]) -> usize
    ensures { result ≡ leading_dots bytes.now }
{
    for (count, byte) in bytes.iter().enumerate() {
        if *byte != b'.' {
            return count;
        }
    }
    bytes.len()
}
