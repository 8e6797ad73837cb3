//! What is asked over a stack: a command, or merges one after the other.
ghost use Rattle.std.specs.Prelude.{◌≡◌};
ghost use Rattle.ovl_commands.specs.Commands as commands;
ghost use Rattle.ovl_engine.specs.Tasks.{command_of};

use ovl_commands::Command;

/// What is asked over a stack.
#[derive(Clone, Copy, Debug, PartialEq, Eq)]
pub enum Task {
    /// A command.
    Once(Command),
    /// Merges one after the other, until this many of the layers that aren't data-only are left, the
    /// root over these not counted. Each is [`Command::Merge`] over the stack that the one before
    /// left, without its root; one that is refused, as where its check finds a fault, ends all.
    MergeDown(usize),
}

impl Task {
    /// The command that is done, once or again and again.
    pub fn command(self) -> Command
        ensures { result ≡ command_of self }
    {
        match self {
            Task::Once(what) => what,
            Task::MergeDown(_) => Command::Merge,
        }
    }
}

/// Whether a command checks the layers with the contents of their files.
pub(crate) fn checks(what: Command) -> bool
    ensures { result ≡ commands.checks what }
{
    match what {
        Command::Show => false,
        Command::Fsck | Command::Vacuum | Command::Deref | Command::Merge | Command::Flatten =>
            true,
    }
}
