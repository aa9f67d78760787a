//! The names of what threads may do with the shared words, for the contracts of `atomic_table`: the
//! invariant of the words, the loads and compare-exchanges, and how views split and join.
ghost use Rattle.node_table.specs.Rule.{IsSoundState, opened, LoadsNode, PlacesNode, LoadsResult, PlacesResult, merged, spent};

use crate::desk_view::DeskView;
use crate::still::Still;
use atomic_table::{Join, Play, Split, TableRule};

/// The rule of the words, between any two steps: they are good, what each desk knows is true, and
/// some desk knows each word that is not 0.
pub(crate) struct TableInvariant;

impl TableRule<(), DeskView, Still> for TableInvariant {
    ghost holds = { IsSoundState };

    ghost first = { opened };
}

/// A load of the word of a leaf or a pair.
pub(crate) struct LoadNode;

impl Play<(), DeskView> for LoadNode {
    ghost then = { LoadsNode };
}

/// A compare-exchange of the word of a leaf or a pair from 0.
pub(crate) struct PlaceNode;

impl Play<(), DeskView> for PlaceNode {
    ghost then = { PlacesNode };
}

/// A load of the word of a result.
pub(crate) struct LoadResult;

impl Play<(), DeskView> for LoadResult {
    ghost then = { LoadsResult };
}

/// A compare-exchange of the word of a result from 0.
pub(crate) struct PlaceResult;

impl Play<(), DeskView> for PlaceResult {
    ghost then = { PlacesResult };
}

/// Both desks know what the one knew.
pub(crate) struct SplitView;

impl Split<DeskView> for SplitView {
    ghost left = { λ view. view };

    ghost right = { λ view. view };
}

/// The one desk knows what either knew.
pub(crate) struct JoinedView;

impl Join<DeskView> for JoinedView {
    ghost both = { merged };

    ghost spent = { spent };
}
