// The listing program of the specification: reads `abi.bin`, then `classes.bin`, in its working folder, and writes their listing. Each argument
// names a folder to list instead, one after the other, ended by a slash: it is put before the two names. A file that is missing or cannot
// be read is named on standard error, and nothing is written for its folder.
#![tactic(auto)]

ghost use Rattle.std.specs.Prelude.{◌≡◌, length, take};
ghost use Rattle.listing.specs.Listing.{listing};

use lines::Out;
use std::io;
use std::rt::Files;
use words::part;

// The bytes of the largest sheet and one block more, so that a longer file is refused and not cut.
const SHEET_BYTES: usize = 512 * (class_sheet::BLOCK_LIMIT as usize + 1);

// More than the longest listing has (crates/listing/proofs/Longest.antt).
const LISTING_BYTES: usize = 2228224;

// Room for a listing. It is made in a function of its own: where the array stands in `list_folder`, which has goals, the check had not ended after 110 seconds.
fn listing_bytes() -> [u8; LISTING_BYTES]
    ensures { LISTING_BYTES ≡ length result }
{
    [0; LISTING_BYTES]
}

// Reads the file of this name in a folder, and answers how many bytes it has.
fn read_in(
    rt: &(impl Eprint + Files),
    folder: &[u8],
    name: &[u8],
    bytes: &mut [u8],
) -> Option<usize> {
    let mut room = [0; 4096];
    let mut path = Out::new(&mut room);
    path.put(folder);
    path.put(name);
    let end = path.at;
    files::read_path(rt, part(&room, 0, end), bytes)
}

// Puts the listing into the bytes lent for it, and answers how many it has: it is there whole.
fn put_listing(abi: &[u8], classes: &[u8], bytes: &mut [u8; LISTING_BYTES]) -> usize
    ensures { take result bytes.new ≡ listing abi.now classes.now }
{
    let mut out = Out::new(bytes);
    listing::list(abi, classes, &mut out);
    out.at
}

// Puts the line of a bad ABI sheet into them, and answers how many bytes it has: none for a good one.
fn put_abi_line(abi: &[u8], bytes: &mut [u8]) -> usize {
    let mut out = Out::new(bytes);
    listing::abi_line(abi, &mut out);
    out.at
}

// Lists a folder.
fn list_folder(rt: &(impl Print + Eprint + Files), folder: &[u8]) -> io::Result<()> {
    let mut room = [0; SHEET_BYTES];
    let Some(n) = read_in(rt, folder, b"abi.bin", &mut room) else {
        return Ok(());
    };
    let abi = part(&room, 0, n);
    let mut text = listing_bytes();
    let end = put_abi_line(abi, &mut text);
    if end > 0 {
        return rt.write_all(part(&text, 0, end));
    }
    let mut room = [0; SHEET_BYTES];
    if let Some(n) = read_in(rt, folder, b"classes.bin", &mut room) {
        let end = put_listing(abi, part(&room, 0, n), &mut text);
        rt.write_all(part(&text, 0, end))?;
    }
    Ok(())
}

fn main(rt: HostRuntime) -> io::Result<()> {
    let folders = files::each_argument(&rt, b"list: argument", |folder| list_folder(&rt, folder))?;
    if folders == 0 {
        list_folder(&rt, b"")?;
    }
    Ok(())
}
