//! Rows of layers, and of the keys and the coats that rest on them.
ghost use Rattle.ov_history_t.specs.Layers.{AccessesCount, AccessesOutliveFiles, CoatsAreTakenOff};
ghost use Rattle.ov_history_t.specs.Layers.{CoatsAreUnderAccessKeys, HoldersDecide, ListsHaveNodes};
ghost use Rattle.ov_history_t.specs.Layers.{NodesHaveKeys, NumbersAreGivenOnce, SurfacesInOrder};

/// A user who was granted access to a base node holds it.
pub fn holders_have_accesses()
    ensures { AccessesCount }
{}

/// A file that is created for some of the users of a base node has a node of its own.
pub fn a_new_file_has_a_node_of_its_own_list()
    ensures { ListsHaveNodes }
{}

/// In Delta a file has a surface where its list isn't the holders of its base node, whatever the
/// set of that node.
pub fn a_surface_for_the_holders_is_wanted()
    ensures { HoldersDecide }
{}

/// Of two surface nodes that one update adds, that of the file with the lower number comes first.
pub fn new_surfaces_come_in_the_order_of_files()
    ensures { SurfacesInOrder }
{}

/// The number of a file that is removed isn't given to another, and other files keep theirs.
pub fn a_number_is_given_once()
    ensures { NumbersAreGivenOnce }
{}

/// A user who was granted access to a base node holds it after the file is removed.
pub fn accesses_outlive_files()
    ensures { AccessesOutliveFiles }
{}

/// Two surface nodes have keys of their own numbers.
pub fn surfaces_have_their_own_keys()
    ensures { NodesHaveKeys }
{}

/// A file whose surface goes is left in the coat of no surface.
pub fn an_old_coat_is_taken_off()
    ensures { CoatsAreTakenOff }
{}

/// The key of a base node's coat is derived from the node's derivation key.
pub fn a_base_coat_is_under_the_access_key()
    ensures { CoatsAreUnderAccessKeys }
{}
