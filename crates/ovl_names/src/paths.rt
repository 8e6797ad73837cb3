//! Which texts are paths, and paths. They must not know what a path leads to.
ghost use Rattle.std.specs.Prelude.{◌≡◌, ◌↔◌, ◌<◌, ◌==◌, Some, None, is_some, IsTrue, IfOk, OnErr, MatchResult, [], ◌∷◌, ◌++◌, if◌then◌else◌, length, take, nat_lt, string_bytes, string_capacity};
ghost use Rattle.std.specs.Ordering.{nat_cmp};
ghost use Rattle.std.specs.declared.cmp.Ordering.TheVariants.{Less, Greater};
ghost use Rattle.std.specs.Cmp.{partial_equiv_from_equiv, po};
ghost use Rattle.std.specs.Cmp.Lexicographic.{nat_list_cmp_total, nat_list_eq_equiv, texts_ties, lists_total, lists_equiv, lists_ties};
ghost use Rattle.std.proofs.Common.{refl};
ghost use Rattle.std.specs.List.{list_any};
ghost use Rattle.ovl_names.specs.Names.{name_cmp, name_fault, slash};
ghost use Rattle.ovl_names.specs.declared.paths.PathFault.TheVariants.{Memory};
ghost use Rattle.ovl_names.specs.Paths.{child_path, parent_of, path_eq, path_cmp, path_text, path_fault, path_refusal, text_parts, text_names, joined_text, parts_between, has_names, depth_limit, text_limit};
ghost use Rattle.ovl_names.specs.Escapes.{shown_path};

use crate::names::{Name, first_name_fault};
use crate::path_names::Names;
use crate::push_escaped;
use std::alloc::{AllocError, AllocFailed, Global};
use std::cmp::Ordering;
use std::marker::Model;
use thiserror::Error;

/// The most names of a path that is read from text.
pub const DEPTH_LIMIT: usize = 128;

/// The most bytes of a text that is read as a path.
pub const TEXT_LIMIT: usize = 4095;

/// Why a text is no path; where several hold, the first of them is given.
#[derive(Clone, Copy, Debug, PartialEq, Eq, Error)]
pub enum PathFault {
    /// It does not begin with `/`.
    #[error("the path does not begin with `/`")]
    NotAbsolute,
    /// Nothing is between two separators, or after the last.
    #[error("the path has an empty part")]
    EmptyPart,
    /// A part is no name, see [`NameFault`](crate::NameFault).
    #[error("the path has a part that is no name")]
    BadPart,
    /// It has more than [`DEPTH_LIMIT`] names.
    #[error("the path has more than {max} names", max = DEPTH_LIMIT)]
    TooDeep,
    /// It has more than [`TEXT_LIMIT`] bytes.
    #[error("the path has more than {max} bytes", max = TEXT_LIMIT)]
    TooLong,
    /// Out of memory.
    #[error("out of memory")]
    Memory,
}

impl From<AllocError> for PathFault {
    ghost from_gives = { λ _ fault. fault ≡ Memory };

    fn from(_: AllocError) -> PathFault {
        PathFault::Memory
    }
}

impl<T: Drop> From<AllocFailed<T>> for PathFault {
    ghost from_gives = { λ _ fault. fault ≡ Memory };

    fn from(_: AllocFailed<T>) -> PathFault {
        PathFault::Memory
    }
}

/// A path from the root of a layer or an overlay, as its names from the root down; the root has
/// none. Paths are ordered name by name as bytes, and a path comes before its continuations.
#[derive(Debug, Drop)]
pub struct Path {
    /// The names, with `/` between them.
    text: String,
    len: usize,
}

impl Model for Path {
    ghost use Rattle.std.specs.Prelude.{◌≡◌, length, true, string_bytes};
    ghost use Rattle.ovl_names.specs.Paths.{PathNames, text_names, has_names};

    ghost Value = { PathNames };

    ghost view = { λ a. text_names (string_bytes a.text) };

    ghost invariant = { λ a. (a.len ≡ length (text_names (string_bytes a.text)))
        × (has_names (text_names (string_bytes a.text)) ≡ true) };
}

impl Path {
    /// The root, `/`.
    pub fn root(alloc: Global) -> Path
        ensures { result ≡ [] }
    {
        Path {
            text: String::new(alloc),
            len: 0,
        }
    }

    /// The path of a text that has names with `/` between them, and none where it is empty; fails
    /// only when out of memory.
    pub fn of_names(alloc: Global, text: &str) -> Result<Path, AllocError>
        requires { IsTrue (has_names (text_names text.now)) }
        ensures { IfOk result (λ path. path ≡ text_names text.now) }
    {
        Path::of(alloc, &Names::of_text(text, name_count(text)))
    }

    // The path of these names.
    fn of(alloc: Global, names: &Names<'_>) -> Result<Path, AllocError>
        ensures { IfOk result (λ path. path ≡ names.now) }
    {
        Ok(Path {
            text: String::from_str(alloc, names.text())?,
            len: names.len(),
        })
    }

    /// The path that a text spells: `/`, or at most [`DEPTH_LIMIT`] names with `/` before each, in
    /// at most [`TEXT_LIMIT`] bytes. Otherwise the first fault in the order of [`PathFault`], each
    /// looked for in the whole text before the next.
    ///
    /// The text `/usr/bin/env`, of a path and a name:
    ///
    /// ```
    /// let directory = Path::parse(alloc, "/usr/bin")?;
    /// let path = directory.child(alloc, &Name::of(alloc, "env")?)?;
    /// Ok(path.shown(alloc)?)
    /// ```
    pub fn parse(alloc: Global, text: &str) -> Result<Path, PathFault>
        ensures { MatchResult result
            (λ path. (path ≡ text_parts text.now) × (path_fault depth_limit text.now ≡ None))
            (λ fault. path_fault depth_limit text.now ≡ path_refusal fault) }
    {
        let Some(rest) = text.strip_prefix('/') else {
            return Err(PathFault::NotAbsolute);
        };
        if rest.is_empty() {
            return Ok(Path::root(alloc));
        }
        match parts_fault(rest) {
            Some(fault) => Err(fault),
            None => Ok(Path::of_names(alloc, rest)?),
        }
    }

    /// The number of names; 0 for the root.
    pub fn len(&self) -> usize
        ensures { result ≡ length self.now }
    {
        self.len
    }

    /// Whether the path is the root.
    pub fn is_empty(&self) -> bool
        ensures { IsTrue result ↔ (self.now ≡ []) }
    {
        self.text.is_empty()
    }

    /// The names from the root down.
    pub fn names(&self) -> Names<'_>
        ensures value { result ≡ self.now }
        ensures names { IsTrue (has_names self.now) }
    {
        Names::of_text(self.text.as_str(), self.len)
    }

    /// A path equal to this one; fails only when out of memory.
    pub fn copy(&self, alloc: Global) -> Result<Path, AllocError>
        ensures { IfOk result (λ path. path ≡ self.now) }
    {
        Path::of(alloc, &self.names())
    }

    /// The path of the entry `name` in this directory; fails only when out of memory.
    pub fn child(&self, alloc: Global, name: &Name) -> Result<Path, AllocError>
        ensures { IfOk result (λ path. path ≡ child_path self.now name.now) }
    {
        self.joined(alloc, &Names::one(name.as_str()))
    }

    /// The path that goes down these names from this one; fails only when out of memory.
    pub fn joined(&self, alloc: Global, names: &Names<'_>) -> Result<Path, AllocError>
        ensures { IfOk result (λ path. path ≡ self.now ++ names.now) }
    {
        let (above, below) = (self.text.as_str(), names.text());
        let mut text = String::with_capacity(alloc, joined_len(above, below))?;
        text.push_str(above)?;
        append(&mut text, below)?;
        Ok(Path {
            text,
            len: self.len + names.len(),
        })
    }

    /// Goes down to the entry `name` of this directory; fails, with nothing changed, only when out
    /// of memory.
    pub fn push(&mut self, name: &Name) -> Result<(), AllocError>
        ensures { MatchResult result
            (λ _. self.new ≡ child_path self.old name.now)
            (λ _. self.new ≡ self.old) }
    {
        self.extend(&Names::one(name.as_str()))
    }

    /// Goes down these names from this directory; fails, with nothing changed, only when out of
    /// memory.
    pub fn extend(&mut self, names: &Names<'_>) -> Result<(), AllocError>
        ensures { MatchResult result
            (λ _. self.new ≡ self.old ++ names.now)
            (λ _. self.new ≡ self.old) }
    {
        append(&mut self.text, names.text())?;
        self.len += names.len();
        Ok(())
    }

    /// Goes up to the directory of the first `depth` names, and down to its entry `name`; fails,
    /// with nothing changed, only when out of memory, and never where the path's text gets no
    /// longer.
    pub fn go_to(&mut self, depth: usize, name: &Name) -> Result<(), AllocError>
        ensures there { MatchResult result
            (λ _. self.new ≡ child_path (take depth self.old) name.now)
            (λ _. self.new ≡ self.old) }
        ensures refused { OnErr result
            (length (path_text self.old)
            < length (path_text (child_path (take depth self.old) name.now))) }
    {
        let name = name.as_str();
        let names = self.names().first(depth);
        let (above, len) = (names.text(), names.len());
        let end = above.len();
        let wanted = joined_len(above, name);
        self.text.reserve(wanted.saturating_sub(self.text.len()))?;
        self.text.truncate(end);
        self.len = len + 1;
        append(&mut self.text, name)?;
        Ok(())
    }

    /// The path of the directory that holds this entry, and `None` for the root; fails only when
    /// out of memory.
    pub fn parent(&self, alloc: Global) -> Result<Option<Path>, AllocError>
        ensures { IfOk result (λ parent. parent ≡ parent_of self.now) }
    {
        match self.names().split_last() {
            Some((_, above)) => Ok(Some(Path::of(alloc, &above)?)),
            None => Ok(None),
        }
    }

    /// The path as reports write it: `/` before each name, see [`escaped`](crate::escaped), and `/`
    /// for the root. Fails only when out of memory.
    pub fn shown(&self, alloc: Global) -> Result<String, AllocError>
        ensures { IfOk result (λ text. string_bytes text ≡ shown_path self.now) }
    {
        let mut text = String::from_str(alloc, "/")?;
        push_escaped(alloc, &mut text, self.text.as_str())?;
        Ok(text)
    }
}

// The bytes of two texts of names, one after the other.
fn joined_len(above: &str, below: &str) -> usize
    ensures { result ≡ length (joined_text above.now below.now) }
{
    if above.is_empty() {
        below.len()
    } else {
        above.len() + 1 + below.len()
    }
}

// Appends names to a text of names; fails, with nothing changed, only when out of memory, and never
// where there is room for them.
fn append(text: &mut String, names: &str) -> Result<(), AllocError>
    ensures names { MatchResult result
        (λ _. text_names (string_bytes text.new)
        ≡ text_names (string_bytes text.old) ++ text_names names.now)
        (λ _. string_bytes text.new ≡ string_bytes text.old) }
    ensures full { OnErr result
        (string_capacity text.old < length (joined_text (string_bytes text.old) names.now)) }
{
    if names.is_empty() {
        return Ok(());
    }
    text.reserve(joined_len(text.as_str(), names) - text.len())?;
    if !text.is_empty() {
        text.push('/')?;
    }
    text.push_str(names)?;
    Ok(())
}

// The first fault of the text that has `/` before these parts, in the order of `PathFault`.
fn parts_fault(rest: &str) -> Option<PathFault>
    requires { 0 < length rest.now }
    ensures { result ≡ path_fault depth_limit (slash ∷ rest.now) }
{
    // An empty part is a bad one too.
    if has_bad_part(rest) {
        Some(if has_empty_part(rest) {
            PathFault::EmptyPart
        } else {
            PathFault::BadPart
        })
    } else if part_count(rest) > DEPTH_LIMIT {
        Some(PathFault::TooDeep)
    } else if is_too_long(rest) {
        Some(PathFault::TooLong)
    } else {
        None
    }
}

/// Whether nothing is before, after or between separators `/` of a text; the empty text has
/// such a part.
pub fn has_empty_part(text: &str) -> bool
    ensures { result ≡ list_any (λ part. length part == 0) (parts_between text.now) }
{
    text.split('/').any(|part| part.is_empty())
}

fn has_bad_part(rest: &str) -> bool
    ensures { result ≡ list_any (λ part. is_some (name_fault part)) (parts_between rest.now) }
{
    rest.split('/').any(|part| first_name_fault(part).is_some())
}

// The number of names of a text that has `/` between them.
fn name_count(text: &str) -> usize
    ensures { result ≡ length (text_names text.now) }
{
    if text.is_empty() { 0 } else { part_count(text) }
}

fn part_count(rest: &str) -> usize
    ensures { result ≡ length (parts_between rest.now) }
{
    rest.split('/').count()
}

// Whether these parts with `/` before them are more than `TEXT_LIMIT` bytes.
fn is_too_long(rest: &str) -> bool
    ensures { result ≡ nat_lt text_limit (length (slash ∷ rest.now)) }
{
    rest.len() >= TEXT_LIMIT
}

impl PartialEq for Path {
    ghost eq = { path_eq };

    ghost laws = { partial_equiv_from_equiv (lists_equiv nat_list_eq_equiv) };

    fn eq(&self, other: &Path) -> bool {
        self.text.as_bytes() == other.text.as_bytes()
    }
}

impl Eq for Path {
    ghost laws = { lists_equiv nat_list_eq_equiv };
}

impl PartialOrd for Path {
    ghost partial_cmp = { λ a b. Some (path_cmp a b) };

    ghost laws = { po (lists_total nat_list_cmp_total) (lists_ties name_cmp texts_ties) };

    fn partial_cmp(&self, other: &Path) -> Option<Ordering> {
        Some(self.cmp(other))
    }
}

impl Ord for Path {
    ghost cmp = { path_cmp };

    ghost total = { lists_total nat_list_cmp_total };

    ghost matches_partial_cmp = { λ a b. refl };

    ghost matches_eq = { lists_ties name_cmp texts_ties };

    fn cmp(&self, other: &Path) -> Ordering {
        order(self.text.as_bytes(), other.text.as_bytes())
    }
}

// How the names of a text are to those of another: `/` comes before every other byte.
fn order(text: &[u8], other: &[u8]) -> Ordering
    ensures { result ≡ path_cmp (text_names text.now) (text_names other.now) }
{
    for i in 0..text.len().min(other.len()) {
        if text[i] != other[i] {
            return order_apart(text[i], other[i]);
        }
    }
    text.len().cmp(&other.len())
}

// How the texts are to each other whose first bytes that differ are these.
fn order_apart(byte: u8, other: u8) -> Ordering
    ensures { result
        ≡ (if byte == slash then Less else if other == slash then Greater else nat_cmp byte other) }
{
    if byte == b'/' {
        Ordering::Less
    } else if other == b'/' {
        Ordering::Greater
    } else {
        byte.cmp(&other)
    }
}
