//! Edges that are kept in one list, with a span of it for each node.
ghost use Rattle.std.specs.Prelude.{◌≡◌, ◌<◌, ◌≤◌, ◌+◌, ◌++◌, ◌∷◌, [], length};
ghost use Rattle.std.specs.Prelude.{vec_len, vec_capacity};
ghost use Rattle.ov_graph.specs.Contents.{joined};
ghost use Rattle.ov_graph.specs.Rows.{row};

use ov_tokens::{Edge, Token};

/// Where the edges into a node lie in the list of edges.
#[derive(Clone, Copy)]
pub struct Span {
    pub first: usize,
    pub many: usize,
}

/// Puts an item at the end of a list that has room for it. It takes no memory.
pub fn push_within<T: Drop>(items: &mut Vec<T>, item: T)
    requires { vec_len items.old < vec_capacity items.old }
    ensures items { items.new.items ≡ items.old.items ++ item ∷ [] }
    ensures len { vec_len items.new ≡ vec_len items.old + 1 }
    ensures capacity { vec_capacity items.old ≤ vec_capacity items.new }
{
    let _ = items.push(item);
}

/// The edges in a span.
pub fn part(edges: &[Edge], span: Span) -> &[Edge]
    requires { span.first + span.many ≤ length edges.now }
    ensures { result.now ≡ row edges.now span }
{
    &edges[span.first..][..span.many]
}

/// Puts edges with these starts and tokens at the end. It takes no memory.
pub fn append(edges: &mut Vec<Edge>, from: &[u32], tokens: &[Token])
    requires same { length from.now ≡ length tokens.now }
    requires room { vec_len edges.old + length tokens.now ≤ vec_capacity edges.old }
    ensures items { edges.new.items ≡ edges.old.items ++ joined from.now tokens.now }
    ensures len { vec_len edges.new ≡ vec_len edges.old + length tokens.now }
    ensures capacity { vec_capacity edges.old ≤ vec_capacity edges.new }
{
    for n in 0..from.len() {
        let edge = Edge {
            from: from[n],
            token: tokens[n],
        };
        push_within(edges, edge);
    }
}
