//! What holds of steps and edges by their types. The functions do nothing.
ghost use Rattle.ov_server.specs.Telling.{HaveTokens, LeadByTokens};

use ov_fields::known_token;
use ov_tokens::{Edge, Step};

/// The token of each step has 32 bytes.
pub fn steps_have_tokens(steps: &[Step])
    ensures { HaveTokens steps.now }
{
    for step in steps {
        known_token(&step.token);
    }
}

/// The token of each edge has 32 bytes.
pub fn edges_have_tokens(edges: &[Edge])
    ensures { LeadByTokens edges.now }
{
    for edge in edges {
        known_token(&edge.token);
    }
}
