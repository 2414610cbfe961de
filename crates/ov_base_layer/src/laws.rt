//! The laws of holders and of tokens, for the proofs of callers. The functions do nothing.
ghost use Rattle.ov_base_layer.specs.Laws.{AccessAddsItsUser, AgainChangesNothing};
ghost use Rattle.ov_base_layer.specs.Laws.{SetsChangeNoHolders, AccessesLead, CoversAreSealed};
ghost use Rattle.ov_base_layer.specs.Laws.{EdgesLead};

/// How holders change: not by a set that is added, nor by access for a user who is a holder; access
/// for another user makes that user a holder of that node alone.
pub fn holders_grow()
    ensures sets { SetsChangeNoHolders }
    ensures access { AccessAddsItsUser }
    ensures again { AgainChangesNothing }
{}

/// Where the sealed tokens lead: each edge of a cover from the key of its start to the key of the
/// cover's node, and an access token from the derivation key of a root to the access key of a node.
pub fn seals_lead()
    ensures covers { CoversAreSealed }
    ensures edges { EdgesLead }
    ensures accesses { AccessesLead }
{}
