//! A spool in a version of the format that this program does not know.
ghost use Rattle.std.specs.Prelude.{◌≡◌};
ghost use Rattle.fault_causes.specs.Versions.{is_header, unknown_version};
ghost use Rattle.spool_areas.specs.Header.{is_version};

use std::alloc::AllocError;
use std::fs::File;
use std::io;
use std::io::{Read, Seek, SeekFrom};

// An open gate, and the versions that `spool_areas` reads.
const OPEN: u8 = 0xA5;

const OLDEST_VERSION: u8 = 1;

const NEWEST_VERSION: u8 = 2;

/// Returns the cause of damage at a byte of the folder's spool, if an area begins there whose version this program does not know.
pub fn version_cause(
    rt: &HostRuntime,
    dir: Option<&str>,
    place: u64,
) -> Result<Option<String>, AllocError> {
    let Some(dir) = dir else {
        return Ok(None);
    };
    let path = format!(in rt.alloc(); "{dir}/spool.disk")?;
    match version_at(rt, path.as_str(), place) {
        Ok(Some(version)) => Ok(Some(format!(in rt.alloc();
            "{dir}/spool.disk has version {version} of the format, which this program does not know (use the Cegmandi that wrote it)"
        )?)),
        _ => Ok(None),
    }
}

// Returns the version of the area that begins at a byte of a spool's file, if this program does not know it.
fn version_at(rt: &HostRuntime, path: &str, place: u64) -> io::Result<Option<u8>> {
    let mut file = File::open(rt, path)?;
    let size = file.seek(SeekFrom::End(0))?;
    if !is_header(place, size) {
        return Ok(None);
    }
    file.seek(SeekFrom::Start(place))?;
    let mut head = [0u8; 2];
    file.read_exact(&mut head)?;
    Ok(unknown_version(head[0], head[1]))
}

// Returns whether an area begins at this byte of a file of this size.
fn is_header(place: u64, size: u64) -> bool
    ensures { result ≡ is_header place size }
{
    place == 0 || place == size / 2
}

// Returns the version of a header with these first two bytes, if it is open and its version is unknown.
fn unknown_version(gate: u8, version: u8) -> Option<u8>
    ensures { result ≡ unknown_version gate version }
{
    if gate == OPEN && !is_version(version) {
        Some(version)
    } else {
        None
    }
}

fn is_version(version: u8) -> bool
    ensures { result ≡ is_version version }
{
    version == OLDEST_VERSION || version == NEWEST_VERSION
}
