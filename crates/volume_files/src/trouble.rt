// What the tool says where it refuses: what was wrong, where, and what to do.
ghost use Rattle.std.specs.Prelude.{◌≡◌};
ghost use Rattle.volume_files.specs.Troubles.{unadded_as, unlisted_as};
ghost use Rattle.volume_files.specs.declared.trouble.What.TheVariants.{Memory, NoVolume};

use crate::grow::Unadded;
use shown::Shown;
use std::alloc::AllocError;
use std::{fmt, io};
use volume::{Damage, Refusal, Unlisted};

#[derive(Drop)]
pub enum What {
    Usage,
    Unreadable(io::Error),
    Input(io::Error),
    Output(io::Error),
    NoVolume(Damage),
    Absent,
    Refused(Refusal),
    Busy,
    Unwritten(io::Error),
    Differs,
    Unplaced(io::Error),
    Unsettled(io::Error),
    Memory,
}

impl From<Damage> for What {
    ghost from_gives = { λ damage what. what ≡ NoVolume damage };

    fn from(damage: Damage) -> What {
        What::NoVolume(damage)
    }
}

impl From<AllocError> for What {
    ghost from_gives = { λ _ what. what ≡ Memory };

    fn from(_error: AllocError) -> What {
        What::Memory
    }
}

impl From<Unlisted> for What {
    ghost from_gives = { λ why what. what ≡ unlisted_as why };

    fn from(why: Unlisted) -> What {
        match why {
            Unlisted::Damaged(damage) => What::NoVolume(damage),
            Unlisted::Memory => What::Memory,
        }
    }
}

impl From<Unadded> for What {
    ghost from_gives = { λ why what. what ≡ unadded_as why };

    fn from(why: Unadded) -> What {
        match why {
            Unadded::Damaged(damage) => What::NoVolume(damage),
            Unadded::Refused(refusal) => What::Refused(refusal),
            Unadded::Memory => What::Memory,
        }
    }
}

impl What {
    // What to do about it.
    fn advice(&self) -> Option<&'static str> {
        match self {
            What::Usage => Some("`volume help` lists them"),
            What::Unreadable(_) => Some("see that the path is right"),
            What::Input(_) | What::Output(_) => Some("run the command again"),
            What::NoVolume(_) => Some(
                "bundles behind that offset can be read; restore the file from another copy",
            ),
            What::Absent => Some("`volume list` shows its names"),
            What::Busy => Some("if none runs, remove it and add again"),
            What::Unwritten(_) => Some("make room and add again"),
            What::Differs => Some("look at the disk"),
            What::Unsettled(_) => Some("run sync before switching off"),
            What::Memory => Some("use a machine with more"),
            What::Refused(_) | What::Unplaced(_) => None,
        }
    }

    // Whether an add may have stopped on it, so that it is told that the file stands.
    fn leaves_the_file(&self) -> bool {
        matches!(
            self,
            What::Refused(_)
                | What::Busy
                | What::Unwritten(_)
                | What::Differs
                | What::Unplaced(_)
                | What::Memory
        )
    }
}

// A refusal, and the file and name that it is about.
#[derive(Drop)]
pub struct Trouble<'a> {
    pub file: &'a str,
    pub name: &'a str,
    pub what: What,
}

impl Trouble<'_> {
    fn write_problem<W: fmt::Write>(&self, f: &mut fmt::Formatter<W>) -> fmt::Result {
        let file = Shown::<true>(self.file.as_bytes());
        let name = Shown::<true>(self.name.as_bytes());
        match &self.what {
            What::Usage => write!(f, "no such command"),
            What::Unreadable(e) => write!(f, "{file} cannot be read: {e}"),
            What::Input(e) => write!(f, "standard input cannot be read: {e}"),
            What::Output(e) => write!(f, "standard output cannot be written: {e}"),
            What::NoVolume(damage) => write!(f, "{file} is no volume: {damage}"),
            What::Absent => write!(f, "{file} has no bundle named {name}"),
            What::Refused(refusal) => write!(f, "{refusal}"),
            What::Busy => write!(
                f,
                "{file}.adding stands already: another add is running or was broken off"
            ),
            What::Unwritten(e) => write!(f, "{file}.adding cannot be written: {e}"),
            What::Differs => write!(f, "{file}.adding does not read back as it was written"),
            What::Unplaced(e) => write!(f, "{file}.adding cannot be renamed over {file}: {e}"),
            What::Unsettled(e) => write!(
                f,
                "the bundle stands in {file}, but the folder could not be synced: {e}"
            ),
            What::Memory => write!(f, "there is not enough memory"),
        }
    }
}

impl fmt::Display for Trouble<'_> {
    fn fmt<W: fmt::Write>(&self, f: &mut fmt::Formatter<W>) -> fmt::Result {
        self.write_problem(f)?;
        if let Some(advice) = self.what.advice() {
            write!(f, "; {advice}")?;
        }
        if self.what.leaves_the_file() {
            write!(f, "; {} is as it was", Shown::<true>(self.file.as_bytes()))?;
        }
        Ok(())
    }
}
