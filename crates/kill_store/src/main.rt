// Stores entries in an archive file, one after the other, and tells each count that is
// acknowledged.
//
// The words are `PATH MOST`: the archive in the file of that path, which is made where there is
// none, gets entries until it has `MOST`, at most 500,000. The entry behind so many others is a
// function of their number. Each is stored as a batch of its own, and then a line says how many the
// archive has acknowledged: whoever reads the lines and kills the program knows what its file must
// hold.
#![tactic(auto)]

mod halt;
mod numbered;
mod storing;

use crate::halt::Halt;
use crate::storing::{open, store_up_to};
use disk_model::FileDisk;
use octet_core::WriterSink;
use std::process::ExitCode;
use std::{env, io};

/// How many entries an archive gets at most. They fit its file.
const MOST: u32 = 500_000;

fn main(rt: HostRuntime) -> io::Result<ExitCode> {
    let mut words = env::args(&rt)?.skip(1);
    let (Some(path), Some(most)) = (words.next(), words.next()) else {
        return Err(io::ErrorKind::InvalidInput.into());
    };
    let Some(most) = most.parse::<u32>().ok().filter(|most| *most <= MOST) else {
        return Err(io::ErrorKind::InvalidInput.into());
    };
    let disk = FileDisk::create(&rt, path.as_str())?;
    match store(&rt, disk, most) {
        Ok(()) => Ok(ExitCode::SUCCESS),
        Err(halt) => {
            eprintln!(rt; "kill_store: {halt}")?;
            Ok(ExitCode::FAILURE)
        }
    }
}

// Stores entries on this disk, and tells the counts on standard output.
fn store(rt: &HostRuntime, disk: FileDisk, most: u32) -> Result<(), Halt> {
    let mut archive = open(rt.alloc(), disk)?;
    let mut output = WriterSink::new(io::writer(rt));
    store_up_to(rt.alloc(), &mut archive, most, &mut output)
}
