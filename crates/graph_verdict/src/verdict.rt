// What a checker says of a graph.
ghost use Rattle.std.specs.Prelude.{◌≡◌};
ghost use Rattle.graph_verdict.specs.Verdict.{rule_name};

/// The rules that a graph may break, in the order in which they are tried at one level.
#[derive(Clone, Copy, Debug, PartialEq, Eq)]
pub enum Rule {
    Entry,
    Kind,
    Callee,
    Decided,
    Fork,
    Target,
    Keep,
    Cases,
    Return,
    Address,
    Vertex,
    Register,
    Flags,
    Bound,
    Cell,
    Functions,
    Refused,
    Frame,
    Reason,
    Outside,
    Assumed,
    Forked,
    Inedge,
    Exact,
}

/// A broken rule and its place; what the rule's level does not have is 0.
#[derive(Clone, Copy, Debug, PartialEq, Eq)]
pub struct Broken {
    pub function: u64,
    pub site: u64,
    pub vertex: u32,
    pub case: u32,
    pub rule: Rule,
}

/// What a checker says of a graph.
#[derive(Clone, Copy, Debug, PartialEq, Eq)]
pub enum Verdict {
    /// No rule is broken.
    Valid,
    /// The first broken rule.
    Invalid(Broken),
}

impl Rule {
    /// The rule's name in lower case, as it is printed.
    pub fn name(self) -> &'static str
        ensures { result.now ≡ rule_name self }
    {
        match self {
            Rule::Entry => "entry",
            Rule::Kind => "kind",
            Rule::Callee => "callee",
            Rule::Decided => "decided",
            Rule::Fork => "fork",
            Rule::Target => "target",
            Rule::Keep => "keep",
            Rule::Cases => "cases",
            Rule::Return => "return",
            Rule::Address => "address",
            Rule::Vertex => "vertex",
            Rule::Register => "register",
            Rule::Flags => "flags",
            Rule::Bound => "bound",
            Rule::Cell => "cell",
            Rule::Functions => "functions",
            Rule::Refused => "refused",
            Rule::Frame => "frame",
            Rule::Reason => "reason",
            Rule::Outside => "outside",
            Rule::Assumed => "assumed",
            Rule::Forked => "forked",
            Rule::Inedge => "inedge",
            Rule::Exact => "exact",
        }
    }
}
