//! What stacks show, by walks, looks, names and views.
ghost use Rattle.std.specs.Prelude.{◌<◌, ◌≤◌, length};
ghost use Rattle.ovl_lookup.specs.Stacks.{all_layers};
ghost use Rattle.ovl_lookup.specs.DirViews.{IsViewOver};

use crate::samples::{layer_of, stack_of};
use ovl_inode::Kind;
use ovl_layer::Layer;
use ovl_lookup::{DirView, Look, PathRope, Stack, StackFault, Step, walk};
use ovl_names::{Name, Path};
use ovl_test_rows::{parts_of, same};
use std::alloc::{AllocError, Global};
use std::test::Fail;

// A line of a stack is of the lines after it. Of these the words before the colon are a call, of
// layer 0 or from it on where no other number is there, a path, and for views names to go down
// by; after the colon stands what comes of it.
const ROWS: &str = "
dir /n opaque=y, dir /n/d redirect=/x, whiteout /x | dir /n, file /n/z, dir /x, file /x/k
layers /: 2
walk /n/d/k: nothing /x/k open
walk /n/z: nothing /n/z closed
walk /x: nothing /x closed
walk /x/k: nothing /x/k closed
look /n/d/k: a
look /n/d: directory
look /n/z: nothing
look-1 /n/z: a
look-2 /n: nothing
names /: n
names /n: d
names /n/d: k
names /n/d/k:
own-names-1 /n: z
own-1 /n: true
own /q: false
list /: / directory, /n directory, /n/d directory, /n/d/k a
view /: n directory
view / n d: k a
view /n: d directory
view /n d: k a
view /n d k: none
view /n/d/k: none
view /x: none

bare /a metacopy= redirect=/x, bare /b metacopy= redirect=r, bare /c metacopy= redirect=a/b, dir /e redirect=a/b, dir /n opaque=y, dir /n/d redirect=r, bare /n/f metacopy= redirect=/x, bare /n/g metacopy= redirect=r | root
walk /a: found /x open
walk /b: found /r open
walk /c: found /c closed
walk /e: found /e closed
walk /e/k: nothing /e/k closed
walk /n/d: found /n/r closed
walk /n/d/k: nothing /n/r/k closed
walk /n/f: found /x open
walk /n/g: found /n/r closed

dir /p redirect=/x, dir /p/q redirect=r, whiteout /p/r, whiteout /x | dir /x, dir /x/r, file /x/r/k
view /: p directory
view /p q: k a
view /p r: none

whiteout /f, console /g, link /l user.k=v | file /f, file /g
view /: g other, l other
view /f: none

bare /f metacopy= | bare /f metacopy= | file /f
look /f: a

bare /f metacopy= | bare /f metacopy= | whiteout /f
look /f: missing

bare /f metacopy= redirect=/f | root | data file /f
list /: / directory, /f a
view /: f a

bare /f metacopy= redirect=/z | whiteout /z | file-b /z | data file /z
list /: / directory, /f a
view /: f a

bare /f metacopy= redirect=/z | root | data bare /z metacopy= | data file /z
list /: / directory, /f a
view /: f a

bare /f metacopy= redirect=/z | root | bare /z metacopy= | data file /z
list /: / directory, /f missing, /z missing
view /: f missing, z missing
";

// What is shown in a word: of a file its contents.
fn word_of(look: &Look) -> &'static str {
    match look {
        Look::Nothing => "nothing",
        Look::Broken(_) => "missing",
        Look::Shown(inode) => match &inode.kind {
            Kind::File {
                blob: Some(blob),
                ..
            } => if blob.as_bytes()[0] == 0xca { "a" } else { "b" },
            Kind::Dir => "directory",
            _ => "other",
        },
    }
}

// A walk in one line: what is found, the next path, and whether it is closed.
fn step_line(alloc: Global, step: &Step) -> Result<String, AllocError> {
    let found = if step.found.is_some() {
        "found"
    } else {
        "nothing"
    };
    let next = step.next.shown(alloc)?;
    let end = if step.closed { "closed" } else { "open" };
    format!(in alloc; "{found} {next} {end}")
}

// The walk of a path in the topmost layer.
fn own_walked(alloc: Global, stack: &Stack, path: &Path) -> Result<String, AllocError>
    requires { 0 < length (all_layers stack.now) }
{
    let rope = PathRope::of(alloc, &path.names())?;
    let step = stack.own_walk(alloc, 0, rope)?;
    step_line(alloc, &step.copied(alloc)?)
}

// The same by the other call that gives it.
fn sheet_walked(alloc: Global, stack: &Stack, path: &Path) -> Result<String, AllocError>
    requires { 0 < length (all_layers stack.now) }
{
    step_line(alloc, &walk(alloc, stack.any_sheet(0), path)?)
}

// The same by both calls.
fn walked(alloc: Global, stack: &Stack, path: &Path) -> Result<String, Fail>
    requires { 0 < length (all_layers stack.now) }
{
    alike(
        own_walked(alloc, stack, path)?,
        sheet_walked(alloc, stack, path)?.as_str(),
    )
}

// What a call gives, where another one gives the same.
fn alike(told: String, other: &str) -> Result<String, Fail> {
    if told.as_str() == other {
        return Ok(told);
    }
    Err(Fail::new("the calls tell something else"))
}

// Names with commas between them.
fn joined(alloc: Global, names: &[Name]) -> Result<String, AllocError> {
    let mut text = String::new(alloc);
    for name in names {
        push_word(&mut text, name.as_str())?;
    }
    Ok(text)
}

// Adds a word, after a comma where there is one before it.
fn push_word(text: &mut String, word: &str) -> Result<(), AllocError> {
    if !text.is_empty() {
        text.push_str(", ")?;
    }
    text.push_str(word)
}

// Adds what is shown under a name or a path.
fn push_look(text: &mut String, name: &str, look: &Look) -> Result<(), AllocError> {
    push_word(text, name)?;
    text.push_str(" ")?;
    text.push_str(word_of(look))
}

fn listed(alloc: Global, stack: &Stack) -> Result<String, AllocError> {
    let mut text = String::new(alloc);
    for (path, look) in &stack.list(alloc)? {
        push_look(&mut text, path.shown(alloc)?.as_str(), look)?;
    }
    Ok(text)
}

fn looks_in(alloc: Global, stack: &Stack, view: &DirView<'_>) -> Result<String, AllocError>
    requires { IsViewOver stack.now view.now }
{
    let mut text = String::new(alloc);
    for (name, look) in &view.looks(alloc, stack)? {
        push_look(&mut text, name.as_str(), look)?;
    }
    Ok(text)
}

fn names_in(alloc: Global, stack: &Stack, view: &DirView<'_>) -> Result<String, AllocError>
    requires { IsViewOver stack.now view.now }
{
    let mut text = String::new(alloc);
    for name in &view.names(alloc, stack)? {
        push_look(&mut text, name.as_str(), &view.look(alloc, stack, name)?)?;
    }
    Ok(text)
}

// What is shown in the directory of a view, by each call that gives it.
fn shown_in(alloc: Global, stack: &Stack, view: &DirView<'_>) -> Result<String, Fail>
    requires { IsViewOver stack.now view.now }
{
    alike(
        looks_in(alloc, stack, view)?,
        names_in(alloc, stack, view)?.as_str(),
    )
}

fn none(alloc: Global) -> Result<String, Fail> {
    Ok(String::from_str(alloc, "none")?)
}

// What is shown in the directory of a view, or in that which a name leads to from there where it
// isn't empty.
fn entered_last(
    alloc: Global,
    stack: &Stack,
    view: &DirView<'_>,
    name: &str,
) -> Result<String, Fail>
    requires { IsViewOver stack.now view.now }
{
    if name.is_empty() {
        return shown_in(alloc, stack, view);
    }
    match view.child(alloc, stack, &Name::of(alloc, name)?)? {
        Some(child) => shown_in(alloc, stack, &child),
        None => none(alloc),
    }
}

// The same for two names, of which the second is empty where the first is.
fn entered(
    alloc: Global,
    stack: &Stack,
    view: &DirView<'_>,
    first: &str,
    second: &str,
) -> Result<String, Fail>
    requires { IsViewOver stack.now view.now }
{
    if first.is_empty() {
        return shown_in(alloc, stack, view);
    }
    match view.child(alloc, stack, &Name::of(alloc, first)?)? {
        Some(child) => entered_last(alloc, stack, &child, second),
        None => none(alloc),
    }
}

// What is shown in the directory that two names lead to from a path's.
fn viewed(
    alloc: Global,
    stack: &Stack,
    path: &str,
    first: &str,
    second: &str,
) -> Result<String, Fail> {
    match DirView::of(alloc, stack, 0, &Path::parse(alloc, path)?)? {
        Some(view) => entered(alloc, stack, &view, first, second),
        None => none(alloc),
    }
}

// What a stack shows from a layer on at a path.
fn looked(alloc: Global, stack: &Stack, from: usize, path: &Path) -> Result<String, Fail>
    requires { from ≤ length stack.now.layers }
{
    let look = stack.look(alloc, from, path)?;
    Ok(String::from_str(alloc, word_of(&look))?)
}

fn truth(alloc: Global, is: bool) -> Result<String, AllocError> {
    String::from_str(alloc, if is { "true" } else { "false" })
}

// What comes of a call that gives names or entries.
fn named_told(alloc: Global, stack: &Stack, call: &str, path: &Path) -> Result<String, AllocError>
    requires { 1 < length (all_layers stack.now) }
{
    match call {
        "list" => listed(alloc, stack),
        "names" => joined(alloc, &stack.names(alloc, 0, path)?),
        "own-names-1" => joined(alloc, &stack.own_names(alloc, 1, path)?),
        "own" => truth(alloc, stack.own_at(0, path).is_some()),
        "own-1" => truth(alloc, stack.own_at(1, path).is_some()),
        _ => String::from_str(alloc, "no call has this word"),
    }
}

// What comes of a call on a path.
fn told(alloc: Global, stack: &Stack, call: &str, path: &Path) -> Result<String, Fail> {
    if stack.ordinary() < 2 || stack.layers() < 2 {
        return Err(Fail::new("the stack has not two layers"));
    }
    match call {
        "layers" => Ok(format!(in alloc; "{}", stack.layers())?),
        "walk" => walked(alloc, stack, path),
        "look" => looked(alloc, stack, 0, path),
        "look-1" => looked(alloc, stack, 1, path),
        "look-2" => looked(alloc, stack, 2, path),
        _ => Ok(named_told(alloc, stack, call, path)?),
    }
}

// What comes of a view, of a path and of the names after it.
fn view_told(alloc: Global, stack: &Stack, text: &str) -> Result<String, Fail> {
    let (path, names) = text.split_once(' ').unwrap_or((text, ""));
    let (first, second) = names.split_once(' ').unwrap_or((names, ""));
    viewed(alloc, stack, path, first, second)
}

// What comes of a call on a stack, as a line has it.
fn called(alloc: Global, stack: &Stack, line: &str) -> Result<String, Fail> {
    let (call, text) = line.split_once(' ').unwrap_or((line, ""));
    if call == "view" {
        return view_told(alloc, stack, text);
    }
    told(alloc, stack, call, &Path::parse(alloc, text)?)
}

// What the line of a call gives.
fn line_told(alloc: Global, stack: &Stack, line: &str) -> Result<(), Fail> {
    let (call, wanted) = line.split_once(':').unwrap_or((line, ""));
    same(
        line,
        called(alloc, stack, call)?.as_str(),
        wanted.trim_start(),
    )
}

#[test]
fn stacks_show_what_is_written(rt: HostRuntime) -> Result<(), Fail> {
    let mut stack = stack_of(rt.alloc(), "root")?;
    for line in ROWS.lines() {
        if line.contains(':') {
            line_told(rt.alloc(), &stack, line)?;
        } else if !line.is_empty() {
            stack = stack_of(rt.alloc(), line)?;
        }
    }
    Ok(())
}

// This many layers of only a root.
fn roots(alloc: Global, count: usize) -> Result<Vec<Layer>, Fail> {
    let mut layers = Vec::new(alloc);
    for _ in 0..count {
        layers.push(layer_of(alloc, "root")?)?;
    }
    Ok(layers)
}

// How many layers a stack has, and how many that aren't data-only; or the text of its fault.
fn counted(alloc: Global, made: Result<Stack, StackFault>) -> Result<String, AllocError> {
    match made {
        Ok(stack) => format!(in alloc; "{} {}", stack.layers(), stack.ordinary()),
        Err(fault) => fault.to_string(alloc),
    }
}

// Numbers of layers and of those that are data-only, and how many the stack has in all and not
// data-only.
const LIMITS: &str = "\
0 0 -> layers must be 1 to 128
1 0 -> 1 1
1 1 -> data layers must leave a layer
128 127 -> 128 1
128 128 -> data layers must leave a layer
129 0 -> layers must be 1 to 128
129 129 -> layers must be 1 to 128
";

fn with_data_told(alloc: Global, count: &str, bottom: &str) -> Result<String, Fail> {
    let layers = roots(alloc, count.parse()?)?;
    Ok(counted(alloc, Stack::with_data(alloc, layers, bottom.parse()?))?)
}

fn without_data_told(alloc: Global, count: &str) -> Result<String, Fail> {
    Ok(counted(alloc, Stack::of(alloc, roots(alloc, count.parse()?)?))?)
}

// What comes of such numbers, where 0 data-only layers are the same as none.
fn limit_told(alloc: Global, row: &str) -> Result<(), Fail> {
    let (numbers, wanted) = parts_of(row);
    let (count, bottom) = numbers.split_once(' ').unwrap_or((numbers, ""));
    same(row, with_data_told(alloc, count, bottom)?.as_str(), wanted)?;
    if bottom != "0" {
        return Ok(());
    }
    same(row, without_data_told(alloc, count)?.as_str(), wanted)
}

#[test]
fn a_stack_has_1_to_128_layers_and_one_that_is_not_data_only(rt: HostRuntime) -> Result<(), Fail> {
    for row in LIMITS.lines() {
        limit_told(rt.alloc(), row)?;
    }
    Ok(())
}
