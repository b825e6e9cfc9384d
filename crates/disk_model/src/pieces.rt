// A file that is read and written whole, piece by piece.
ghost use Rattle.std.specs.Prelude.{◌≡◌, ◌+◌, ◌≤◌, ◌<◌, ◌^◌, max, length, option_map};
ghost use Rattle.std.specs.Prelude.{IfOk, OnOk, OnErr};
ghost use Rattle.disk_model.specs.Images.{FailsToWrite, after_write};
ghost use Rattle.disk_model.specs.Moments.{Becomes, Elapses, Reads};
ghost use Rattle.disk_model.specs.RawFile.{IsSizeOf, HasAtLeast, IsInLastWrite, ReadsFront};
ghost use Rattle.disk_model.specs.RawFile.{after_first_piece, after_further_piece};
ghost use Rattle.disk_model.specs.RawFile.{FailsToBegin, FailsToGoOn};

use crate::RawFile;
use std::io;
use std::io::ErrorKind;

// How often a piece that is interrupted is taken again.
const FURTHER_TRIES: u32 = 100;

/// Reads until all octets are there. A file that ends before them is an error.
pub fn read_whole<F: RawFile>(file: &F, place: u64, into: &mut [u8]) -> io::Result<()>
    requires { place + length into.old < 2 ^ 64 }
    ensures { OnOk result (Reads (F.pending file.now) place into.new) }
{
    let mut done = 0;
    while done < into.len() {
        match read_piece(file, place + done as u64, &mut into[done..]) {
            Ok(0) => return Err(ErrorKind::UnexpectedEof.into()),
            Ok(further) => done += further,
            Err(error) => return Err(error),
        }
    }
    Ok(())
}

/// Writes until all octets are taken, and grows the file's size by what is written. A file that
/// takes none of a piece behind the first is an error.
pub fn write_whole<F: RawFile>(
    file: &mut F,
    size: &mut u64,
    place: u64,
    octets: &[u8],
) -> io::Result<()>
    requires size { IsSizeOf (F.pending file.old) size.old }
    requires place { place ≤ size.old }
    requires fits { place + length octets.now < 2 ^ 64 }
    ensures written { OnOk result (F.pending file.new ≡ option_map (after_write place octets.now)
        (F.pending file.old)) }
    ensures torn { OnErr result (Becomes (FailsToWrite place (length octets.now))
        (F.pending file.old) (F.pending file.new)) }
    ensures time { Elapses (F.moment file.old) (F.moment file.new) (F.images_since file.old)
        (F.images_since file.new) (F.pending file.new) }
    ensures asked { F.asked file.new ≡ F.asked file.old }
    ensures size { IsSizeOf (F.pending file.new) size.new }
    ensures grown { OnOk result (size.new ≡ max size.old (place + length octets.now)) }
    ensures kept { size.old ≤ size.new }
    ensures bound { size.new ≤ max size.old (place + length octets.now) }
{
    let mut done = match begin(file, place, octets) {
        Ok(begun) => begun,
        Err(error) => return Err(error),
    };
    *size = (*size).max(place + done as u64);
    while done < octets.len() {
        match go_on(file, place + done as u64, &octets[done..]) {
            Ok(0) => return Err(ErrorKind::WriteZero.into()),
            Ok(further) => {
                done += further;
                *size = (*size).max(place + done as u64);
            }
            Err(error) => return Err(error),
        }
    }
    Ok(())
}

// Reads a piece, and again where that was interrupted.
fn read_piece<F: RawFile>(file: &F, place: u64, into: &mut [u8]) -> io::Result<usize>
    ensures bound { IfOk result (λ n. n ≤ length into.new) }
    ensures octets { IfOk result (λ n. ReadsFront (F.pending file.now) place n into.new) }
{
    for _ in 0..FURTHER_TRIES {
        match file.read(place, into) {
            Err(error) if error.kind() == ErrorKind::Interrupted => {}
            answer => return answer,
        }
    }
    file.read(place, into)
}

// Begins a write, and again where that was interrupted.
fn begin<F: RawFile>(file: &mut F, place: u64, octets: &[u8]) -> io::Result<usize>
    requires { HasAtLeast (F.pending file.old) place }
    ensures bound { IfOk result (λ n. n ≤ length octets.now) }
    ensures written { IfOk result (λ n. F.pending file.new
        ≡ option_map (after_first_piece place octets.now n) (F.pending file.old)) }
    ensures torn { OnErr result (Becomes (FailsToBegin place (length octets.now))
        (F.pending file.old) (F.pending file.new)) }
    ensures time { Elapses (F.moment file.old) (F.moment file.new) (F.images_since file.old)
        (F.images_since file.new) (F.pending file.new) }
    ensures asked { F.asked file.new ≡ F.asked file.old }
{
    for _ in 0..FURTHER_TRIES {
        match file.write(place, octets) {
            Err(error) if error.kind() == ErrorKind::Interrupted => {}
            answer => return answer,
        }
    }
    file.write(place, octets)
}

// Goes on with a write, and again where that was interrupted.
fn go_on<F: RawFile>(file: &mut F, place: u64, octets: &[u8]) -> io::Result<usize>
    requires range { IsInLastWrite (F.pending file.old) place (length octets.now) }
    requires place { HasAtLeast (F.pending file.old) place }
    ensures bound { IfOk result (λ n. n ≤ length octets.now) }
    ensures written { IfOk result (λ n. F.pending file.new
        ≡ option_map (after_further_piece place octets.now n) (F.pending file.old)) }
    ensures torn { OnErr result (Becomes (FailsToGoOn place (length octets.now))
        (F.pending file.old) (F.pending file.new)) }
    ensures time { Elapses (F.moment file.old) (F.moment file.new) (F.images_since file.old)
        (F.images_since file.new) (F.pending file.new) }
    ensures asked { F.asked file.new ≡ F.asked file.old }
{
    for _ in 0..FURTHER_TRIES {
        match file.write_on(place, octets) {
            Err(error) if error.kind() == ErrorKind::Interrupted => {}
            answer => return answer,
        }
    }
    file.write_on(place, octets)
}
