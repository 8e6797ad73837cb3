//! The commands of the command line with their options, and the texts of their help.
ghost use Rattle.std.specs.Prelude.{◌≡◌, IfOk, false};
ghost use Rattle.clap.specs.Words.{app_of};
ghost use Rattle.clap.specs.declared.builder.command.Command.TheViews.{out-Command as fields_of};
ghost use Rattle.ovl_command_line.specs.Commands.{HasRule, HasShape, any_size_rule, bare_app, blobs_rule, blobs_shape, data_layers_rule, default_word, default_workers, down_to_rule, folders_shape, fsck_shape, layers_rule, layers_shape, merge_shape, out_rule, rewriting_shape, show_shape, tool_app, workers_rule};
ghost use Rattle.ovl_command_line.specs.Lines.{number_in};
ghost use Rattle.clap.specs.Simple.{shape_of, with_subcommand};

use clap::builder::ValueParser;
use clap::{Arg, ArgAction, Command, value_parser};
use ovl_board::WORKER_LIMIT;
use ovl_lookup::LAYER_LIMIT;
use std::alloc::{AllocError, Global};

/// The number of workers where no other is asked for, and the word for it.
pub const DEFAULT_WORKERS: usize = 4;

const DEFAULT_WORKERS_WORD: &str = "4";

const DEFAULT_DATA_LAYERS_WORD: &str = "0";

const NAME: &str = "ovl_layers";

// The version of the program, and so of all its crates.
const VERSION: &str = "0.1.0";

const ABOUT: &str = "\
Inspects, checks and rewrites stacks of overlayfs layers. Layers are given as JSON manifests; nothing is mounted.
Rewriting never changes what a stack shows. Without words it shows the layer whose manifest is on standard input.";

const SHOW: &str = "List each path that the overlay of the layers shows, with what is there";

const FSCK: &str =
    "Check that the layers fit one another and that the contents of their files are whole";

const VACUUM: &str = "Drop from the topmost layer what changes nothing in what the overlay shows";

const DEREF: &str = "Write the topmost layer without redirects and metacopy files";

const MERGE: &str = "Put the topmost layer into the one below it";

const FLATTEN: &str = "Write all that the overlay shows as one layer";

const WORKERS: &str = "How many workers share the directories, 1 to 64";

const DATA_LAYERS: &str = "How many of the layers, the lowest ones, are data-only, 0 to 127";

const BLOBS: &str =
    "Folder with the contents of the layers' files, each file named by its SHA-256 digest";

const ANY_SIZE: &str = "Read only contents that the layers name, in parts, whatever their size";

const DOWN_TO: &str = "Merge until N layers that aren't data-only are left, 1 to 127";

const OUT: &str = "Folder for the new layers, written there as layer-0.json and so on";

const LAYERS: &str = "Manifest of a layer, the topmost layer first";

const MORE: &str = "\
All commands but show read the contents of files. vacuum, deref, merge and flatten first check as fsck does: if there is
a fault, they print its report and write nothing. `ovl_layers <COMMAND> --help` explains a command and its options.

Exit status:
  0  Done
  1  The layers have a fault
  2  The words don't fit
  3  Something can't be read, or isn't a manifest
  4  Something can't be written
  5  A new layer passes a limit, memory ran out, or anything else

Examples:
  ovl_layers < layer.json
  ovl_layers show upper.json lower.json
  ovl_layers fsck --blobs contents --any-size upper.json lower.json
  ovl_layers flatten --blobs contents --out new upper.json lower.json";

const MORE_ON_SHOW: &str = "\
Prints a line for each path: kind, mode, owner, group, time, size, the digest of a file's contents (or a link's target,
or a device's numbers), the path, and its attributes. The last line is their number.

A data-only layer shows no path of its own. It has contents for metacopy files of the layers over it, which name it by
an absolute redirect, as c in the mount option lowerdir=a:b::c.

Example:
  ovl_layers show --workers 8 upper.json lower.json";

const MORE_ON_FSCK: &str = "\
For a stack that is to be mounted or shipped. Faults are directories moved from a place that is lost or not hidden, and
files whose contents are missing or wrong; notes are marks that do nothing. The status is 1 if there is a fault. Nothing
is repaired.

Without --any-size all files of the folder are held in memory, at most 268,435,456 bytes.

Examples:
  ovl_layers fsck --blobs contents --workers 8 upper.json lower.json
  ovl_layers fsck --blobs contents --any-size upper.json lower.json";

const MORE_ON_VACUUM: &str = "\
For an upper layer that is to be kept or shipped. Each file and directory goes that only repeats what the layers below
show there; the report lists them. With the new layer the overlay shows the same as before.

Example:
  ovl_layers vacuum --blobs contents --out new upper.json lower.json";

const MORE_ON_DEREF: &str = "\
For an upper layer that is to be read where redirects and metacopy files mean nothing. A directory that was moved becomes
a new one with all that the overlay shows in it, and a metacopy file gets the contents that it shows. With the new layer
the overlay shows the same as before. The report lists its entries, each with what it means to the overlay.

Example:
  ovl_layers deref --blobs contents --out new upper.json lower.json";

const MORE_ON_MERGE: &str = "\
For an upper layer that is to be taken into the layer below it. layer-1.json is the two as one, and layer-0.json a layer
with only a root, which may be left out. With these in place of the two the overlay shows the same as before. The report
lists the entries of layer-1.json.

With --down-to N merging goes on with that layer and the next one, until N are left: layer-1.json, which holds all that
were merged, and the N - 1 lowest that were given. Data-only layers and layer-0.json aren't counted, and N must be less
than there are. Each merge checks first; contents are read once. The report is that of the last merge.

To have a single layer, flatten is quicker, and leaves no data-only layers under it.

Examples:
  ovl_layers merge --blobs contents --out new upper.json lower.json
  ovl_layers merge --blobs contents --out new --down-to 2 upper.json middle.json lower.json base.json";

const MORE_ON_FLATTEN: &str = "\
For a stack that is to be one layer. It has no whiteout and no mark, and shows by itself what the stack shows; data-only
layers aren't needed any more. The report lists its entries.

Example:
  ovl_layers flatten --blobs contents --out new upper.json lower.json";

/// The whole command line after the program's name.
pub fn tool<'a>(alloc: Global) -> Result<Command<'a>, AllocError>
    ensures { IfOk result (λ command. app_of command ≡ tool_app) }
{
    let command = telling(alloc)?;
    let command = with_rewriting(alloc, command, "vacuum", VACUUM, MORE_ON_VACUUM)?;
    let command = with_rewriting(alloc, command, "deref", DEREF, MORE_ON_DEREF)?;
    let command = command.subcommand(merge(alloc)?)?;
    with_rewriting(alloc, command, "flatten", FLATTEN, MORE_ON_FLATTEN)
}

// The program's own level, with the commands that make no layer.
fn telling<'a>(alloc: Global) -> Result<Command<'a>, AllocError>
    ensures { IfOk result (λ command. app_of command
        ≡ with_subcommand (with_subcommand bare_app show_shape) fsck_shape) }
{
    bare(alloc)?
        .subcommand(show(alloc)?)?
        .subcommand(fsck(alloc)?)
}

// The program's own level, without its commands.
fn bare<'a>(alloc: Global) -> Result<Command<'a>, AllocError>
    ensures { IfOk result (λ command. app_of command ≡ bare_app) }
{
    Ok(
        Command::new(alloc, NAME)
            .bin_name(NAME)?
            .version(VERSION)
            .no_binary_name(true)
            .subcommand_required(true)
            .disable_help_subcommand(true)
            .about(ABOUT)
            .after_help(MORE),
    )
}

fn show<'a>(alloc: Global) -> Result<Command<'a>, AllocError>
    ensures { IfOk result (HasShape show_shape) }
{
    let command = Command::new(alloc, "show")
        .about(SHOW)
        .after_help(MORE_ON_SHOW);
    with_layers(alloc, command)
}

fn fsck<'a>(alloc: Global) -> Result<Command<'a>, AllocError>
    ensures { IfOk result (HasShape fsck_shape) }
{
    with_layers(alloc, with_blobs(alloc, "fsck", FSCK, MORE_ON_FSCK)?)
}

// A command that makes new layers.
fn rewriting<'a>(
    alloc: Global,
    name: &'a str,
    about: &'a str,
    more: &'a str,
) -> Result<Command<'a>, AllocError>
    ensures { IfOk result (HasShape (rewriting_shape name.now)) }
{
    with_layers(alloc, with_folders(alloc, name, about, more)?)
}

// The level of all commands with one more that makes new layers.
fn with_rewriting<'a>(
    alloc: Global,
    command: Command<'a>,
    name: &'a str,
    about: &'a str,
    more: &'a str,
) -> Result<Command<'a>, AllocError>
    ensures { IfOk result (λ more. app_of more
        ≡ with_subcommand (app_of command.entry) (rewriting_shape name.now)) }
{
    command.subcommand(rewriting(alloc, name, about, more)?)
}

fn merge<'a>(alloc: Global) -> Result<Command<'a>, AllocError>
    ensures { IfOk result (HasShape merge_shape) }
{
    let command = with_folders(alloc, "merge", MERGE, MORE_ON_MERGE)?.arg(down_to(alloc))?;
    with_layers(alloc, command)
}

// The command with what all take at the end: options for the workers and the data-only layers, and
// the layers.
fn with_layers<'a>(alloc: Global, command: Command<'a>) -> Result<Command<'a>, AllocError>
    requires { (fields_of command).has_globals ≡ false }
    ensures { IfOk result (HasShape (layers_shape (shape_of command.entry))) }
{
    command
        .arg(workers(alloc))?
        .arg(data_layers(alloc))?
        .arg(layers(alloc))
}

// A command that checks, with only the options for its blobs. Its help begins with `about` and ends
// with `more`.
fn with_blobs<'a>(
    alloc: Global,
    name: &'a str,
    about: &'a str,
    more: &'a str,
) -> Result<Command<'a>, AllocError>
    ensures { IfOk result (HasShape (blobs_shape name.now)) }
{
    Command::new(alloc, name)
        .about(about)
        .after_help(more)
        .arg(blobs(alloc))?
        .arg(any_size(alloc))
}

// A command that makes new layers, with only the options for its blobs and for its folder of new
// layers.
fn with_folders<'a>(
    alloc: Global,
    name: &'a str,
    about: &'a str,
    more: &'a str,
) -> Result<Command<'a>, AllocError>
    ensures { IfOk result (HasShape (folders_shape name.now)) }
{
    with_blobs(alloc, name, about, more)?.arg(out(alloc))
}

fn workers<'a>(alloc: Global) -> Arg<'a>
    ensures rule { HasRule workers_rule result }
    ensures default { (number_in default_word ≡ default_workers)
        × (DEFAULT_WORKERS ≡ default_workers) }
{
    Arg::new(alloc, "workers")
        .long("workers")
        .value_name("N")
        .value_parser(value_parser!(usize).range(1..=WORKER_LIMIT as i64))
        .default_value(DEFAULT_WORKERS_WORD)
        .help(WORKERS)
}

fn data_layers<'a>(alloc: Global) -> Arg<'a>
    ensures { HasRule data_layers_rule result }
{
    Arg::new(alloc, "data-layers")
        .long("data-layers")
        .value_name("K")
        .value_parser(value_parser!(usize).range(0..LAYER_LIMIT as i64))
        .default_value(DEFAULT_DATA_LAYERS_WORD)
        .help(DATA_LAYERS)
}

fn blobs<'a>(alloc: Global) -> Arg<'a>
    ensures { HasRule blobs_rule result }
{
    Arg::new(alloc, "blobs")
        .long("blobs")
        .value_name("DIR")
        .required(true)
        .help(BLOBS)
}

fn any_size<'a>(alloc: Global) -> Arg<'a>
    ensures { HasRule any_size_rule result }
{
    Arg::new(alloc, "any-size")
        .long("any-size")
        .action(ArgAction::SetTrue)
        .help(ANY_SIZE)
}

fn out<'a>(alloc: Global) -> Arg<'a>
    ensures { HasRule out_rule result }
{
    Arg::new(alloc, "out")
        .long("out")
        .value_name("DIR")
        .value_parser(ValueParser::NonEmptyString)
        .required(true)
        .help(OUT)
}

fn down_to<'a>(alloc: Global) -> Arg<'a>
    ensures { HasRule down_to_rule result }
{
    Arg::new(alloc, "down-to")
        .long("down-to")
        .value_name("N")
        .value_parser(value_parser!(usize).range(1..LAYER_LIMIT as i64))
        .help(DOWN_TO)
}

fn layers<'a>(alloc: Global) -> Arg<'a>
    ensures { HasRule layers_rule result }
{
    Arg::new(alloc, "layers")
        .value_name("LAYER")
        .required(true)
        .action(ArgAction::Append)
        .num_args(1..)
        .help(LAYERS)
}
