//! A client, from public contracts alone: two files published one after the other. At every stop each reads old or
//! new, and the second new only if the first is.
ghost use Rattle.gix_ref_files.specs.Files.{StopsLeave};
ghost use Rattle.gix_ref_files_tests.specs.Publish.{ArePublishedInOrder, ArePathsApart};

use gix_ref_files::files::Files;
use gix_ref_files::steps::{Action, Ended, Planned, Settle, run_steps};

/// A place, and the lock beside it that holds its new text.
#[derive(Debug, Drop)]
pub struct Place {
    pub path: Vec<u8>,
    pub lock: Vec<u8>,
}

/// Renames the first lock to its place, and then the second. Each place is settled before the next is renamed.
pub fn publish_both<F: Files>(files: &mut F, first: Place, second: Place) -> Result<(), Ended>
    requires { ArePathsApart first.lock.items first.path.items second.lock.items second.path.items }
    ensures stops { F.honest → StopsLeave (F.means files.old) (F.means files.new)
        (ArePublishedInOrder first.lock.items first.path.items second.lock.items second.path.items
        (F.means files.old).tree) }
    ensures at_end { F.honest → ArePublishedInOrder first.lock.items first.path.items
        second.lock.items second.path.items (F.means files.old).tree (F.means files.new).tree }
{
    let once = Action::Rename {
        from: &first.lock,
        to: &first.path,
    };
    let then = Action::Rename {
        from: &second.lock,
        to: &second.path,
    };
    let settle = Settle::UpTo { root: 1 };
    let plan = [
        Planned {
            action: once,
            settle,
            about: (),
        },
        Planned {
            action: then,
            settle,
            about: (),
        },
    ];
    run_steps(files, &plan)
}
