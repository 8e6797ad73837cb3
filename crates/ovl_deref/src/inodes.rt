//! What becomes of one inode. It must not look into layers.
ghost use Rattle.std.specs.Prelude.{◌≡◌, ◌||◌, IfOk};
ghost use Rattle.ovl_names.specs.Names.{name_eq};
ghost use Rattle.ovl_inode.specs.Attributes.{redirect_name, metacopy_name};
ghost use Rattle.ovl_deref.specs.Deref.{full_attributes};
ghost use Rattle.ovl_deref.specs.Deref as deref;

use ovl_inode::{Attrs, Inode, overlay, visible};
use ovl_lookup::Look;
use std::alloc::{AllocError, Global};

/// A moved directory unfolded: its visible inode, opaque. overlayfs.rst: "whiteouts and opaque
/// directories".
pub(crate) fn unfolded(alloc: Global, inode: &Inode) -> Result<Inode, AllocError>
    ensures { IfOk result (λ new. new ≡ deref.unfolded inode.now) }
{
    // Made by hand (1): `opaque` is an attribute's name, so no other fault of `Attrs::put` comes.
    let mut shown = visible(alloc, inode)?;
    match shown.attrs.put(overlay::OPAQUE, b"y") {
        Ok(()) => Ok(shown),
        Err(_) => Err(AllocError),
    }
}

/// A metacopy file made full, with the contents that are shown. overlayfs.rst: "Metadata only copy
/// up".
pub(crate) fn filled(alloc: Global, inode: &Inode, look: &Look) -> Result<Inode, AllocError>
    ensures { IfOk result (λ full. full ≡ deref.filled inode.now look.now) }
{
    match look {
        Look::Shown(shown) => Ok(inode.with(
            shown.kind.copy(alloc)?,
            full_attrs(alloc, &inode.attrs)?,
        )),
        Look::Nothing | Look::Broken(_) => inode.copy(alloc),
    }
}

// The attributes without those that tie a file to its data below.
fn full_attrs(alloc: Global, attrs: &Attrs) -> Result<Attrs, AllocError>
    ensures { IfOk result (λ full. full ≡ full_attributes attrs.now) }
{
    // Made by hand (1): a name of given attributes is one, so no other fault of `Attrs::put` comes.
    let mut full = Attrs::new(alloc);
    for (name, value) in attrs.pairs() {
        if ties_to_data(name) {
            continue;
        }
        let Ok(()) = full.put(name, value) else {
            return Err(AllocError);
        };
    }
    Ok(full)
}

fn ties_to_data(name: &str) -> bool
    ensures { result ≡ (name_eq name.now metacopy_name || name_eq name.now redirect_name) }
{
    name == overlay::METACOPY || name == overlay::REDIRECT
}
