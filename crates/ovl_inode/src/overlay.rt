//! The names of the extended attributes by which overlayfs marks inodes. Kernel's overlayfs.rst.

/// What begins the names of the overlay's own attributes.
pub const PREFIX: &str = "trusted.overlay.";

/// What begins the names of an overlay's attributes that are escaped for a nested one: "Nesting
/// overlayfs mounts".
pub const ESCAPED_PREFIX: &str = "trusted.overlay.overlay.";

/// On a directory, `y` hides what lower layers have at its path, and `x` says that it holds
/// whiteouts by attribute: "whiteouts and opaque directories".
pub const OPAQUE: &str = "trusted.overlay.opaque";

/// On a directory or a metacopy file, where it was before it was renamed: "renaming directories".
pub const REDIRECT: &str = "trusted.overlay.redirect";

/// On a regular file without contents of its own: "Metadata only copy up".
pub const METACOPY: &str = "trusted.overlay.metacopy";

/// On an empty regular file that hides what lower layers have at its path: "whiteouts and opaque
/// directories".
pub const WHITEOUT: &str = "trusted.overlay.whiteout";

/// On a directory, `y` says that it holds entries with [`ORIGIN`].
pub const IMPURE: &str = "trusted.overlay.impure";

/// On an entry that was copied up: the file handle of what it was copied from.
pub const ORIGIN: &str = "trusted.overlay.origin";
