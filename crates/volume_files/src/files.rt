// Each command on real files.
ghost use Rattle.std.specs.Prelude.{◌≡◌, false, map, IfOk, IsErr, string_bytes};
ghost use Rattle.volume_files.specs.Wishes.{asked};

use crate::command::{Command, HELP, read_command};
use crate::grow::grown;
use crate::trouble::{Trouble, What};
use shown::Shown;
use std::fs::File;
use std::io::{Read, Write};
use std::path::Path;
use std::{fs, io};
use volume::{BundleRef, Found, check, find, list};

// Does what the words ask for; whether it was done. A refusal is told on standard error here,
// so the bool is only the program's status.
pub fn obey(rt: &HostRuntime, words: &[String]) -> io::Result<bool>
    ensures { IfOk result (λ done. asked (map string_bytes words.now) ≡ None → done ≡ false) }
{
    match follow(rt, words) {
        Ok(()) => Ok(true),
        Err(trouble) => refuse(rt, &trouble),
    }
}

// Tells a refusal: it was not done, whatever was wrong.
fn refuse(rt: &HostRuntime, trouble: &Trouble<'_>) -> io::Result<bool>
    ensures { IfOk result (λ done. done ≡ false) }
{
    eprintln!(rt; "volume: {trouble}")?;
    Ok(false)
}

fn follow<'a>(rt: &HostRuntime, words: &'a [String]) -> Result<(), Trouble<'a>>
    ensures { asked (map string_bytes words.now) ≡ None → IsErr result }
{
    let command = read_command(words).ok_or(Trouble {
        file: "",
        name: "",
        what: What::Usage,
    })?;
    let (file, name) = command.subject();
    run(rt, command).map_err(|what| Trouble { file, name, what })
}

// Does what a command asks for, and prints its account.
fn run(rt: &HostRuntime, command: Command<'_>) -> Result<(), What> {
    match command {
        Command::Check(file) => check_file(rt, file),
        Command::List(file) => list_file(rt, file),
        Command::Get(file, name) => get(rt, file, name),
        Command::Add(file, name) => add(rt, file, name),
        Command::Help => println!(rt; "{HELP}").map_err(What::Output),
    }
}

fn read_file(rt: &HostRuntime, file: &str) -> Result<Vec<u8>, What> {
    fs::read(rt, file).map_err(What::Unreadable)
}

fn check_file(rt: &HostRuntime, file: &str) -> Result<(), What> {
    let bytes = read_file(rt, file)?;
    let count = check(bytes.as_slice())?;
    let shown = Shown::<true>(file.as_bytes());
    let len = bytes.len();
    println!(rt; "{shown} is a volume; bundles: {count}; bytes: {len}").map_err(What::Output)
}

fn list_file(rt: &HostRuntime, file: &str) -> Result<(), What> {
    let bytes = read_file(rt, file)?;
    print_bundles(rt, bytes.as_slice())
}

// The bundles of a volume, newest first.
fn print_bundles(rt: &HostRuntime, bytes: &[u8]) -> Result<(), What> {
    for Found { at, bundle } in list(rt.alloc(), bytes)? {
        let name = Shown::<true>(bundle.name);
        let len = bundle.entity.len();
        println!(rt; "{name}\t{len} bytes\toffset {at}").map_err(What::Output)?;
    }
    Ok(())
}

fn get(rt: &HostRuntime, file: &str, name: &str) -> Result<(), What> {
    let bytes = read_file(rt, file)?;
    let found = find(bytes.as_slice(), name.as_bytes())?.ok_or(What::Absent)?;
    rt.stdout()
        .write_all(found.bundle.entity)
        .map_err(What::Output)
}

fn add(rt: &HostRuntime, file: &str, name: &str) -> Result<(), What> {
    let entity = read_input(rt)?;
    let old = read_or_none(rt, file)?;
    let bundle = BundleRef {
        name: name.as_bytes(),
        entity: entity.as_slice(),
    };
    let new = grown(rt.alloc(), old.as_slice(), bundle)?;
    replace(rt, file, new.as_slice())?;
    account(rt, file, name, old.len())
}

fn read_input(rt: &HostRuntime) -> Result<Vec<u8>, What> {
    let mut bytes = Vec::new(rt.alloc());
    rt.stdin().read_to_end(&mut bytes).map_err(What::Input)?;
    Ok(bytes)
}

// A file's bytes; a file that is not there is an empty volume.
fn read_or_none(rt: &HostRuntime, file: &str) -> Result<Vec<u8>, What> {
    match fs::read(rt, file) {
        Err(e) if e.kind() == io::ErrorKind::NotFound => Ok(Vec::new(rt.alloc())),
        read => read.map_err(What::Unreadable),
    }
}

// Puts the bytes in a file's place: written beside it, synced, read back, and only then renamed over it.
fn replace(rt: &HostRuntime, file: &str, bytes: &[u8]) -> Result<(), What> {
    let beside = format!(in rt.alloc(); "{file}.adding")?;
    let fresh = File::create_new(rt, beside.as_str()).map_err(not_made)?;
    settle(rt, fresh, beside.as_str(), file, bytes).inspect_err(|_| {
        let _ = fs::remove_file(rt, beside.as_str());
    })?;
    sync_folder(rt, file)
}

fn not_made(e: io::Error) -> What {
    if e.kind() == io::ErrorKind::AlreadyExists {
        What::Busy
    } else {
        What::Unwritten(e)
    }
}

fn settle(
    rt: &HostRuntime,
    fresh: File,
    beside: &str,
    file: &str,
    bytes: &[u8],
) -> Result<(), What> {
    write_synced(fresh, bytes).map_err(What::Unwritten)?;
    let back = read_file(rt, beside)?;
    if back.as_slice() != bytes {
        return Err(What::Differs);
    }
    fs::rename(rt, beside, file).map_err(What::Unplaced)
}

fn write_synced(mut fresh: File, bytes: &[u8]) -> io::Result<()> {
    fresh.write_all(bytes)?;
    fresh.sync_all()
}

// Makes the rename last.
fn sync_folder(rt: &HostRuntime, file: &str) -> Result<(), What> {
    let folder = Path::new(file)
        .parent()
        .map(|parent| parent.as_str())
        .filter(|folder| !folder.is_empty())
        .unwrap_or(".");
    File::open(rt, folder)
        .and_then(|folder| folder.sync_all())
        .map_err(What::Unsettled)
}

// What stands in the file now, read back from its end.
fn account(rt: &HostRuntime, file: &str, name: &str, at: usize) -> Result<(), What> {
    let bytes = read_file(rt, file)?;
    let count = check(bytes.as_slice())?;
    let shown = Shown::<true>(file.as_bytes());
    let name = Shown::<true>(name.as_bytes());
    let len = bytes.len();
    println!(rt;
        "added {name} at offset {at}; {shown} now has bundles: {count}; bytes: {len}; newest first:"
    ).map_err(What::Output)?;
    print_bundles(rt, bytes.as_slice())
}
