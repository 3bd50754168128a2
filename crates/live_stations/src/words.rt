//! Live stations, as the words of a command line ask for them.

ghost use Rattle.std.specs.Prelude.{◌≡◌, ◌++◌, ◌∷◌, [], false, List, None, IfErr, IfOk, IfSome, OnOk, map};
ghost use Rattle.clap.specs.Words.{Text};
ghost use Rattle.live_program.specs.Asked.{IsAskedIn, IsWhyNotRead};
ghost use Rattle.live_stations.specs.LiveSetups.{IsLiveAsked, IsLiveUnread, IsSetupAsked};
ghost use Rattle.live_stations.specs.Setups.{scripts_in, HasNoLive, IsLoaded, IsUntaken, NamesLive};
ghost use Rattle.office_run.specs.Loading.{IsFileFault};

use crate::with_setup::WithSetup;
use byte_io::Bytes;
use catalogue_core::MAX_STATIONS;
use clap::error::ErrorKind;
use folders::{LoadFault, Source};
use live_program::{LiveFailure, Options, read_options};
use office_run::{FileFault, ServeFault};
use program_frame::{Ending, Failure};
use station_lines::{SetupEntry, SetupFault, parse_setup};
use std::alloc::{AllocError, Global};
use std::convert::AsStr;

/// What the words of a command line, and the setup that they name, say of live stations.
#[derive(Drop)]
pub enum LiveSetup<S: Source + Drop> {
    /// The setup's stations are live.
    Live {
        /// The source, from which the setup isn't read again.
        source: WithSetup<S>,
        /// The path of each station, in their order.
        paths: Vec<Bytes>,
    },
    /// They are to be, but it names none, or more than there may be, or has a bad line.
    NoneLive {
        /// The source, from which the setup isn't read again.
        source: WithSetup<S>,
    },
    /// The words don't ask for live stations, or can't be read.
    NotAsked {
        /// The source, of which nothing was read.
        source: S,
    },
}

// Whether this is told where memory was refused for the words.
fn is_of_memory(ending: &Ending<Failure<LiveFailure>>) -> bool
    ensures no { (words : List Text) → IsWhyNotRead words ending.now → result ≡ false → IsUntaken words }
{
    match ending {
        Ending::CommandLine(error) => error.kind() == ErrorKind::OutOfMemory,
        Ending::Failed(Failure::Work(LiveFailure::Serve(ServeFault::NoMemory))) => true,
        _ => false,
    }
}

// What the words ask for. `None` where they can't be read.
fn options_in<'a, T: AsStr>(
    alloc: Global,
    words: &'a [T],
) -> Result<Option<Options<'a>>, AllocError>
    ensures asked { IfOk result (λ found. IfSome found (IsAskedIn (map T.text words.entry.now))) }
    ensures untaken { IfOk result (λ found. found ≡ None → IsUntaken (map T.text words.entry.now)) }
{
    match read_options(alloc, words) {
        Ok(options) => Ok(Some(options)),
        Err(ending) if is_of_memory(&ending) => Err(AllocError),
        Err(_) => Ok(None),
    }
}

// Adds the path of an entry that is a station's.
fn add_path(paths: &mut Vec<Bytes>, entry: SetupEntry) -> Result<(), AllocError>
    ensures added { OnOk result (paths.new.items ≡ paths.old.items ++ scripts_in (entry ∷ [])) }
{
    if let SetupEntry::Station { script } = entry {
        paths.push(script)?;
    }
    Ok(())
}

// The path of each station that these entries name, in their order.
fn station_paths(alloc: Global, entries: Vec<SetupEntry>) -> Result<Vec<Bytes>, AllocError>
    ensures paths { IfOk result (λ paths. paths.items ≡ scripts_in entries.items) }
{
    let mut paths = Vec::new(alloc);
    for entry in entries {
        add_path(&mut paths, entry)?;
    }
    Ok(paths)
}

// The paths of the stations of a setup's text. `None` where it has a bad line, names no station, or more than there may be.
fn live_paths(alloc: Global, text: &[u8]) -> Result<Option<Vec<Bytes>>, AllocError>
    ensures live { IfOk result (λ found. IfSome found (λ paths. NamesLive text.now paths.items)) }
    ensures none { IfOk result (λ found. found ≡ None → HasNoLive text.now) }
{
    let entries = match parse_setup(alloc, text) {
        Ok(entries) => entries,
        Err(SetupFault::NoMemory) => return Err(AllocError),
        Err(SetupFault::Bad(_)) => return Ok(None),
    };
    let paths = station_paths(alloc, entries)?;
    if paths.is_empty() || paths.len() > MAX_STATIONS as usize {
        return Ok(None);
    }
    Ok(Some(paths))
}

// The text of the setup of this path.
fn load_setup<S: Source>(alloc: Global, source: &mut S, path: &Bytes) -> Result<Bytes, ServeFault>
    ensures loaded { IfOk result (IsLoaded (S.files source.old) path.now) }
    ensures unread { IfErr result (IsFileFault (S.files source.old) path.now) }
    ensures loads { OnOk result (S.failures source.new ≡ S.failures source.old) }
    ensures kept { S.files source.new ≡ S.files source.old }
{
    match source.load(alloc, path.as_slice()) {
        Ok(text) => Ok(text),
        Err(LoadFault::NoMemory) => Err(ServeFault::NoMemory),
        Err(LoadFault::CannotRead) => {
            Err(ServeFault::File(path.copy(alloc)?, FileFault::CannotRead))
        }
        Err(LoadFault::Unrecovered) => Err(ServeFault::File(
            path.copy(alloc)?,
            FileFault::Unrecovered,
        )),
    }
}

// The live stations of the setup of this path.
fn load_live<S: Source + Drop>(
    alloc: Global,
    source: S,
    path: &str,
) -> Result<LiveSetup<S>, ServeFault>
    ensures found { IfOk result (IsSetupAsked S.files S.failures source path.now) }
    ensures unread { IfErr result (IsFileFault (S.files source) path.now) }
{
    let mut source = source;
    let path = Bytes::from_slice(alloc, path.as_bytes())?;
    let setup = load_setup(alloc, &mut source, &path)?;
    let live = live_paths(alloc, setup.as_slice())?;
    let source = WithSetup::new(source, path, setup);
    match live {
        Some(paths) => Ok(LiveSetup::Live { source, paths }),
        None => Ok(LiveSetup::NoneLive { source }),
    }
}

/// The live stations that the words ask for, as the setup names them. None are live where the words don't ask for it or can't be read, and
/// where the setup was read and names no station, or more than [`MAX_STATIONS`], or has a bad line: what is wrong with these is told where the
/// day is lived, on the setup that was read. An error where the words ask for live stations and the setup can't be read: `File` with its path.
/// And `NoMemory` where memory is refused.
pub fn live_setup<S: Source + Drop, T: AsStr>(
    alloc: Global,
    source: S,
    words: &[T],
) -> Result<LiveSetup<S>, ServeFault>
    ensures found { IfOk result (IsLiveAsked S.files S.failures source (map T.text words.entry.now)) }
    ensures unread { IfErr result (IsLiveUnread (S.files source) (map T.text words.entry.now)) }
{
    let Some(options) = options_in(alloc, words)? else {
        return Ok(LiveSetup::NotAsked { source });
    };
    if !options.live {
        return Ok(LiveSetup::NotAsked { source });
    }
    load_live(alloc, source, options.setup)
}
