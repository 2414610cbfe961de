//! Laws of chains.
ghost use Rattle.std.specs.Prelude.{◌≡◌, ◌++◌, ◌∷◌, [], ℕ, List, length};
ghost use Rattle.ov_tokens.specs.declared.label.Kind.{Kind};
ghost use Rattle.ov_tokens.specs.declared.edge.Edge.{Edge};
ghost use Rattle.ov_graph.specs.Contents.{Contents};
ghost use Rattle.ov_chain.specs.Path.{OneChain};
ghost use Rattle.ov_chain.specs.Walk.{AreSealed, IsSealed};

/// Does nothing. Its contract says which graphs are sealed, so that the keys at the ends of their
/// chains are known: one without edges, and one to which a node was added whose edges have the
/// tokens of their labels' keys.
pub fn graphs_are_sealed()
    ensures empty { (kind : Kind) (master : List ℕ) (graph : Contents)
        → graph.edges ≡ [] → IsSealed kind master graph }
    ensures more { (kind : Kind) (master : List ℕ) (old new : Contents) (edges : List Edge)
        → IsSealed kind master old
        → new.edges ≡ old.edges ++ edges ∷ []
        → AreSealed kind master (length old.edges) edges
        → IsSealed kind master new }
{}

/// Does nothing. Its contract is that a chosen chain is the only one: two graphs with the same sets
/// and edges, however each is kept, give the same chain.
pub fn chains_are_unique()
    ensures { OneChain }
{}
