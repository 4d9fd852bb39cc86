// What stands around a statement in its body: the labels that enclose it, and the mode of the result.
use chill_base::Memory;
use chill_tree::tree::Name;
use modes::Mode;
use std::alloc::Global;
use std::rc::Rc;

/// What stands around a statement in its body.
#[derive(Clone, Copy)]
pub struct Around<'t, 'l> {
    /// The labels of the statements around it, the innermost one's last.
    pub labels: &'l [&'t Name],
    /// The mode of the result, in a procedure that has one.
    pub result: Option<&'l Rc<Mode>>,
}

impl<'t, 'l> Around<'t, 'l> {
    /// What stands around the statements of a body that are in no other.
    pub fn body(returned: Option<&'l Rc<Mode>>) -> Around<'t, 'l> {
        Around {
            labels: &[],
            result: returned,
        }
    }

    /// How many labelled statements further out than the innermost one the innermost one of that label stands.
    pub fn outwards(&self, label: &Name) -> Option<u32> {
        let mut outwards = 0_u32;
        for own in self.labels.iter().rev() {
            if own.text.as_slice() == label.text.as_slice() {
                return Some(outwards);
            }
            outwards = outwards.saturating_add(1);
        }
        None
    }
}

/// These labels, and one within them.
pub fn with_label<'t>(
    alloc: Global,
    labels: &[&'t Name],
    label: &'t Name,
) -> Result<Vec<&'t Name>, Memory> {
    let mut all = Vec::with_capacity(alloc, labels.len())?;
    for own in labels {
        all.push(*own)?;
    }
    all.push(label)?;
    Ok(all)
}
