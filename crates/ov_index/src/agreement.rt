//! Two graphs with the same sets and edges give the same answers, however each is kept.
ghost use Rattle.ov_index.specs.Agreement.{Agree, AnswerAlike};

use ov_graph::Graph;
use ov_tokens::Layer;

/// Does nothing. Its contract is that graphs with the same sets and edges have the same answers.
pub fn graphs_answer_alike<L: Layer, A: Graph<L, W>, B: Graph<L, W>, const W: usize>(
    one: &A,
    other: &B,
)
    requires { Agree (A.contents one.now) (B.contents other.now) }
    ensures { AnswerAlike L.label_kind (A.contents one.now) (B.contents other.now) }
{}
