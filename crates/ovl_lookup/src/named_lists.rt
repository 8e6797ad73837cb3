//! Lists in the order of names, two as one. It must not know layers.
ghost use Rattle.std.specs.Prelude.{◌≡◌, map, IfOk};
ghost use Rattle.ovl_names.specs.Names.{PathName};
ghost use Rattle.ovl_lookup.specs.NamedLists.{AreInOrder, both_joined};

use ovl_names::Name;
use std::alloc::{AllocError, Global};
use std::cmp::Ordering;

/// A name with what belongs to it, as lists in the order of names have it.
pub trait HasName: Copy {
    /// What belongs to the name.
    ghost Own: { Type 0 };

    ghost told: { Self → PathName × Own };

    /// What belongs to a name that is in two lists.
    ghost joined_of: { Own → Own → Own };

    /// The name.
    fn name(&self) -> &Name
        ensures { result.now ≡ (told self.now).0 };

    /// The name with what belongs to it here and in `other`, which has the same name.
    fn joined(&self, other: &Self) -> Self
        ensures { told result
            ≡ ((told self.now).0, joined_of (told self.now).1 (told other.now).1) };
}

/// Both lists in one, in the order of names, in which each of them is; a name that both have comes
/// once, joined. Fails only when out of memory.
pub fn join_lists<T: HasName>(alloc: Global, upper: &[T], lower: &[T]) -> Result<Vec<T>, AllocError>
    requires { AreInOrder (map T.told lower.now) }
    ensures { IfOk result
        (λ both. map T.told both.items
        ≡ both_joined T.joined_of (map T.told upper.now) (map T.told lower.now)) }
{
    let mut both = Vec::with_capacity(alloc, upper.len().saturating_add(lower.len()))?;
    let (mut above, mut below) = (upper, lower);
    while let Some((one, more)) = above.split_first() {
        let Some((other, further)) = below.split_first() else {
            break;
        };
        match one.name().cmp(other.name()) {
            Ordering::Less => {
                both.push(*one)?;
                above = more;
            }
            Ordering::Equal => {
                both.push(one.joined(other))?;
                above = more;
                below = further;
            }
            Ordering::Greater => {
                both.push(*other)?;
                below = further;
            }
        }
    }
    both.extend_from_slice(above)?;
    both.extend_from_slice(below)?;
    Ok(both)
}
