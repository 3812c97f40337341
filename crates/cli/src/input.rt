ghost use Rattle.std.specs.Prelude.{◌≡◌, ◌≤◌, IfOk, IfErr, IfSome, length, take};
ghost use Rattle.cli.specs.Ending.{status_of};

use crate::ending::Ending;
use crate::name::Name;
use std::alloc::Global;
use std::io::Read;
use std::rt::Files;
use std::{fs, io};

// A list has at most 4 bytes and 4 for each of the 2,016 links that there can be between 64 nodes. A link more is refused
// where it stands, so what comes after it changes no answer.
const LIST_BYTES: u64 = 4 + 4 * (2016 + 1);

/// The bytes of a file, or of standard input where none is named.
pub fn read<R: Files + Input + AllocGlobal>(rt: &R, file: Option<&str>) -> Result<Vec<u8>, Ending>
    ensures { IfErr result (λ ending. status_of ending ≡ 1) }
{
    read_first(rt, file, u64::MAX)
}

/// The bytes of a list of links, or as many of them as decide what it is refused for: an input that doesn't end is read no
/// further.
pub fn read_list<R: Files + Input + AllocGlobal>(
    rt: &R,
    file: Option<&str>,
) -> Result<Vec<u8>, Ending>
    ensures { IfErr result (λ ending. status_of ending ≡ 1) }
{
    read_first(rt, file, LIST_BYTES)
}

fn read_first<R: Files + Input + AllocGlobal>(
    rt: &R,
    file: Option<&str>,
    count: u64,
) -> Result<Vec<u8>, Ending>
    ensures { IfErr result (λ ending. status_of ending ≡ 1) }
{
    let bytes = match file {
        Some(path) => fs::open(rt, path).and_then(|file| first_bytes(rt.alloc(), file, count)),
        None => first_bytes(rt.alloc(), rt.reader(), count),
    };
    match bytes {
        Ok(bytes) => Ok(bytes),
        Err(cause) => Err(unreadable(rt.alloc(), file, &cause)),
    }
}

/// Reads some bytes of standard input into `room`, and says how many they are: 0 at its end.
pub fn read_some<R: Input + AllocGlobal>(rt: &R, room: &mut [u8]) -> Result<usize, Ending>
    ensures { IfOk result (λ count. count ≤ length room.new) }
{
    let count = rt.reader().read(room);
    count.map_err(|cause| unreadable(rt.alloc(), None, &cause))
}

// Why the file, or standard input, can't be read.
fn unreadable(alloc: Global, file: Option<&str>, cause: &io::Error) -> Ending
    ensures { status_of result ≡ 1 }
{
    let name = Name(file);
    match format!(in alloc; "{name}: {cause}") {
        Ok(line) => Ending::Unreadable(line),
        Err(error) => Ending::Memory(error),
    }
}

// The bytes of a reader, but not more than `count`.
pub(crate) fn first_bytes<S: Read + Drop>(
    alloc: Global,
    reader: S,
    count: u64,
) -> io::Result<Vec<u8>>
    ensures { IfOk result (λ v. IfSome (S.remaining reader) (λ all. v.items ≡ take count all)) }
{
    let mut bytes = Vec::new(alloc);
    reader.take(count).read_to_end(&mut bytes)?;
    Ok(bytes)
}
