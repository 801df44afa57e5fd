//! Laws of nodes. Each is the contract of a function with an empty body.
ghost use Rattle.meaning_tasks.specs.NodeLaws.{FitsIsDecided, MadeNodesFit, OnwardFits, ElementNumbers};

/// Whether a node fits is decided by a test.
pub fn fits_is_decided()
    ensures { FitsIsDecided }
{}

/// The node of a text fits, and so does each node further along a path.
pub fn made_nodes_fit()
    ensures made { MadeNodesFit }
    ensures onward { OnwardFits }
{}

/// Keys of lists are the numbers from 1.
pub fn element_numbers()
    ensures { ElementNumbers }
{}
