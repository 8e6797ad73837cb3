//! The versions of a manifest's form.
ghost use Rattle.std.specs.Prelude.{◌≡◌, map};
ghost use Rattle.ovl_manifest.specs.Versions.{version_of, version_number, depth_of, common_members};

use ovl_names::DEPTH_LIMIT;

// The most names of a path in the first version.
const FIRST_DEPTH: usize = 64;

/// A version of a manifest's form: what entries of all kinds state, and how deep a path may be.
#[derive(Clone, Copy)]
pub(crate) enum Version {
    /// The first: times in whole seconds.
    One,
    /// The one that is written: times with nanoseconds, and deeper paths.
    Two,
}

/// The version that is written.
pub(crate) const WRITTEN: Version = Version::Two;

impl Version {
    /// The version of this number, if there is one.
    pub(crate) fn of(number: u64) -> Option<Version>
        ensures { result ≡ version_of number }
    {
        match number {
            1 => Some(Version::One),
            2 => Some(Version::Two),
            _ => None,
        }
    }

    /// The number of the version.
    pub(crate) fn number(self) -> u64
        ensures { result ≡ version_number self }
    {
        match self {
            Version::One => 1,
            Version::Two => 2,
        }
    }

    /// The most names of a path.
    pub(crate) fn depth(self) -> usize
        ensures { result ≡ depth_of self }
    {
        match self {
            Version::One => FIRST_DEPTH,
            Version::Two => DEPTH_LIMIT,
        }
    }

    /// The members of entries of all kinds.
    pub(crate) fn common_members(self) -> &'static [&'static str]
        ensures { map (λ name. name.now) result.now ≡ common_members self }
    {
        match self {
            Version::One => &["gid", "kind", "mode", "mtime", "path", "uid", "xattrs"],
            Version::Two => &[
                "gid",
                "kind",
                "mode",
                "mtime",
                "mtime-nsec",
                "path",
                "uid",
                "xattrs",
            ],
        }
    }
}
