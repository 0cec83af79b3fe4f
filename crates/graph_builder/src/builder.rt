ghost use Rattle.std.specs.Prelude.{◌≡◌, true, [], ◌∷◌, ◌++◌, None, IfOk};
ghost use Rattle.std.specs.declared.result.Result.TheVariants.{Ok};
ghost use Rattle.term_text.specs.Reading.{Gives};
ghost use Rattle.graph_data.specs.WellFormed.{IsWellFormed};
ghost use Rattle.graph_lines.specs.Line.{IsLine};
ghost use Rattle.graph_lines.specs.LineKind.{kind_of_line};
ghost use Rattle.graph_builder.specs.Lines.{graph_lines};
ghost use Rattle.graph_builder.specs.Partial.{new_builder, CanClose};
ghost use Rattle.graph_builder.specs.Follow.{can_follow};
ghost use Rattle.graph_builder.specs.Extend.{extended};
ghost use Rattle.graph_builder.specs.Building.{judged, finished, lines_of, IsBuilt};

use crate::close::close_position;
use crate::extend::{new_function, refused_function};
use crate::list_vec::ListVec;
use graph_data::{Function, Graph, Site};
use graph_lines::{Line, LineKind};
use mem_forest::Node;
use predicates::{Bound, FlagFact};
use sqlite_items::Items;
use std::alloc::Global;
use sym_terms::{NoMemory, Term};
use term_text::TextCause;

/// A vertex whose lines are being read. Its nodes stand in levels: a level's nodes are those under the last node of
/// the level above.
#[derive(Drop)]
pub(crate) struct PartialVertex {
    pub(crate) regs: Option<ListVec<Option<Term>>>,
    pub(crate) flags: Option<FlagFact>,
    pub(crate) bounds: ListVec<Bound>,
    pub(crate) levels: ListVec<ListVec<Node>>,
    pub(crate) out: Items<(u64, u32)>,
}

/// Where the next line comes, with what isn't whole yet: a function with its sites so far, a site with its vertices so
/// far.
#[derive(Drop)]
pub(crate) enum Position {
    /// Before the first function, or after a refused one.
    Between,
    /// After a function's own line.
    Function(Function),
    /// After a site's own line or its assumptions.
    Site(Function, Site),
    /// After a line of a vertex.
    Vertex(Function, Site, PartialVertex),
    /// After the last line.
    Ended,
}

/// A graph as far as its lines go that were pushed.
#[derive(Drop)]
pub struct Builder {
    pub(crate) functions: Items<Function>,
    pub(crate) position: Position,
}

impl Builder {
    /// No line was pushed; takes no memory.
    #[tactic(auto, using(crate::proofs::BuildLemmas::new_is_built))]
    pub fn new(alloc: Global) -> Builder
        ensures value { result ≡ new_builder }
        ensures built { IsBuilt result × (lines_of result ≡ []) }
    {
        Builder {
            functions: Items::new(alloc),
            position: Position::Between,
        }
    }

    /// Whether a line of the kind can come next.
    pub fn can_follow(&self, kind: LineKind) -> bool
        ensures { result ≡ can_follow self.now kind }
    {
        self.position.can_follow(kind)
    }

    /// Whether a line of a kind that can come next is in order and within the limits: `OutOfOrder`, else `OverLimit`.
    #[tactic(auto, unfolding(crate::specs::Building::judged))]
    pub fn judge(&self, line: &Line) -> Result<(), TextCause>
        ensures { Gives (λ _. extended self.now line.now) result (judged self.now line.now) }
    {
        if !self.is_in_order(line) {
            return Err(TextCause::OutOfOrder);
        }
        if !self.position.is_within(line) {
            return Err(TextCause::OverLimit);
        }
        Ok(())
    }

    /// What is built with one line more, which has been judged; `NoMemory` where memory runs out.
    #[tactic(auto, using(crate::proofs::BuildLemmas::can_close, crate::proofs::BuildLemmas::pushed_is_built, crate::proofs::BuildLemmas::pushed_lines))]
    pub fn push(self, alloc: Global, line: Line) -> Result<Builder, NoMemory>
        requires is_built { IsBuilt self }
        requires is_line { IsLine line }
        requires can_follow { can_follow self (kind_of_line line) ≡ true }
        requires judged { judged self line ≡ Ok (extended self line) }
        ensures value { IfOk result (λ b. b ≡ extended self line) }
        // It is what its lines build: those of before, and this one.
        ensures built { IfOk result (λ b. IsBuilt b × (lines_of b ≡ lines_of self ++ line ∷ [])) }
    {
        self.extended(alloc, line)
    }

    /// The graph; `Unended` where its last line wasn't pushed.
    pub fn finish(self) -> Result<Graph, TextCause>
        requires { IsBuilt self }
        ensures exact { Gives (λ g. g) result (finished self) }
        // It is well formed, and has just the lines that were pushed.
        ensures found { IfOk result (λ g. IsWellFormed g × (graph_lines g ≡ lines_of self)) }
    {
        let Builder {
            functions,
            position,
        } = self;
        match position {
            Position::Ended => Ok(Graph { functions }),
            Position::Between | Position::Function(_) | Position::Site(..) | Position::Vertex(..) =>
                Err(TextCause::Unended),
        }
    }

    fn extended(self, alloc: Global, line: Line) -> Result<Builder, NoMemory>
        requires { CanClose self.position }
        ensures { IfOk result (λ b. b ≡ extended self line) }
    {
        let Builder {
            functions,
            position,
        } = self;
        match line {
            Line::Function(entry, below, above) => {
                let functions = close_position(alloc, functions, position)?;
                let function = new_function(alloc, entry, below, above);
                Ok(builder_of(functions, Position::Function(function)))
            }
            Line::Refused(entry) => {
                let mut functions = close_position(alloc, functions, position)?;
                functions.push(refused_function(alloc, entry))?;
                Ok(builder_of(functions, Position::Between))
            }
            Line::End => {
                let functions = close_position(alloc, functions, position)?;
                Ok(builder_of(functions, Position::Ended))
            }
            Line::Site(addr, kind) => {
                Ok(builder_of(functions, position.begin_site(alloc, addr, kind)?))
            }
            Line::Vertex(_) => Ok(builder_of(functions, position.begin_vertex(alloc)?)),
            Line::InSite(line) => Ok(builder_of(functions, position.in_site_after(line)?)),
            Line::InVertex(line) => {
                Ok(builder_of(functions, position.in_vertex_after(alloc, line)?))
            }
        }
    }
}

fn builder_of(functions: Items<Function>, position: Position) -> Builder
    ensures { result ≡ record { functions = functions; position = position } }
{
    Builder {
        functions,
        position,
    }
}
