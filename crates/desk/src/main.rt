// The desk: prints what it has to say of the book in book.bin and of the stored sheet in sheet.bin, in the current folder.
#![tactic(auto)]

ghost use Rattle.std.specs.Counts.{IsPrefixLen};
ghost use Rattle.std.specs.Prelude.{◌≤◌, length};

use book::{LENGTH_LIMIT, PLACES};
use report::TEXT_LIMIT;
use std::fs::File;
use std::io;
use std::io::{Read, Write};

// One byte more than is read as a book, so that too long is told from long enough.
const BOOK_BYTES: usize = LENGTH_LIMIT + 1;

// One byte more than a stored sheet may have.
const SHEET_BYTES: usize = PLACES + 1;

// Fills the buffer from the file as far as it goes, and answers how many bytes that are. A read that fails ends the file.
// (a) A `while`, since a read moves by as many bytes as it gives: `read_to_end` needs a heap, and `read_exact` a known length.
fn read_full(file: &mut File, buffer: &mut [u8]) -> usize
    ensures { IsPrefixLen result buffer.new }
{
    let mut count = 0;
    while count < buffer.len() {
        match file.read(&mut buffer[count..]) {
            Ok(0) | Err(_) => return count,
            Ok(n) => count += n,
        }
    }
    count
}

// A file's bytes, as far as the buffer has room: none where it cannot be opened.
// (a) They stand first in a buffer that may be larger, since there is no heap.
fn read_file<'a>(rt: &HostRuntime, path: &str, buffer: &'a mut [u8]) -> &'a [u8]
    ensures { length result.now ≤ length buffer.old }
{
    let Ok(mut file) = File::open(rt, path) else {
        return &[];
    };
    let count = read_full(&mut file, buffer);
    &buffer[..count]
}

fn main(rt: HostRuntime) -> io::Result<()> {
    let mut book = [0; BOOK_BYTES];
    let mut form = [0; SHEET_BYTES];
    let mut text = [0; TEXT_LIMIT];
    let book = read_file(&rt, "book.bin", &mut book);
    let form = read_file(&rt, "sheet.bin", &mut form);
    // (a) The text stands first in a buffer with room for any, since there is no heap.
    if let Ok(length) = report::report(book, form, &mut text) {
        io::writer(&rt).write_all(&text[..length])?;
    }
    Ok(())
}
