// The labels of the actions around a place.
ghost use Rattle.std.specs.Prelude.{◌≡◌, []};
ghost use Rattle.names_model.specs.StatementParts.{encloses, labelled};
ghost use Rattle.reach_parts.specs.Labels.{labels_in};

use chill_tree::tree::Name;

/// The labels of the actions around a place, the innermost first.
#[derive(Drop)]
pub(crate) enum Labels<'a> {
    /// No action is around.
    Empty,
    /// An action is around that may have a label, and others around it.
    Around {
        label: &'a Option<Name>,
        outer: &'a Labels<'a>,
    },
}

/// Whether an action of that label is around.
pub(crate) fn is_enclosed(labels: &Labels, name: &Name) -> bool
    ensures { result ≡ encloses (labels_in labels.now) name.now }
{
    match labels {
        Labels::Empty => false,
        Labels::Around { label, outer } => has_label(label, name) || is_enclosed(outer, name),
    }
}

// Whether this is the label.
fn has_label(label: &Option<Name>, name: &Name) -> bool
    ensures { result ≡ encloses (labelled label.now []) name.now }
{
    match label {
        None => false,
        Some(label) => label.text.as_slice() == name.text.as_slice(),
    }
}
