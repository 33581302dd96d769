//! Labels around a node.

ghost use Rattle.std.specs.Prelude.{◌≡◌};
ghost use Rattle.rl_model.specs.Applied as spec;
ghost use Rattle.rl_row_forms.specs.Labels.{labels_of};

use rl_base::text::Text;

/// The labels around a node, the innermost first. Contracts see a list of pairs: the name, and whether the label is right in front of
/// a loop (`labels_of`).
#[derive(Clone, Copy)]
pub enum Labels<'l> {
    /// No label.
    Nothing,
    /// A label inside others.
    Inside(&'l Labels<'l>, &'l Text, bool),
}

/// The innermost label of a name: true if it is a loop's. `None` where no such label stands around.
pub fn label_found(labels: &Labels<'_>, label: &Text) -> Option<bool>
    ensures { result ≡ spec.label_found (labels_of labels.now) label.now }
{
    match labels {
        Labels::Nothing => None,
        Labels::Inside(outer, name, is_loop) => {
            if name.as_str() == label.as_str() {
                Some(*is_loop)
            } else {
                label_found(outer, label)
            }
        }
    }
}
