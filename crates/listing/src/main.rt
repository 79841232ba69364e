// Reads one preset from standard input and prints the listing of its boot chain, or its refusal. Where it cannot read
// or write it says so on standard error and prints nothing more. Its words tell: its exit status is always 0.

#![tactic(auto)]

ghost use Rattle.std.specs.Prelude.{◌≤◌, length};

use meaning::TEXT_BYTES;
use page::Page;
use preset::listing::Listed;
use std::io::{Read, Stdin, Stdout, Write};

// The name that a preset without one is given.
const NAME: [u8; 5] = *b"board";

// One byte more than a text may have, so that a longer one is told from it.
const INPUT_BYTES: usize = TEXT_BYTES + 1;

const TREE_BYTES: usize = tree::VALUE_BYTES * meaning::VALUES;

// Each of the name's five bytes may print as two.
const OUTPUT_BYTES: usize = preset::listing::LISTING_BYTES + 2 * 5;
// `refused` and three numbers need no more.
const REFUSAL_BYTES: usize = 96;

// What was read: so many bytes at the head of the room, whole only where no read failed.
#[derive(Clone, Copy)]
struct Input {
    failed: bool,
    count: usize,
}

// Reads until the room is full, the input ends or a read fails.
fn read_input(stdin: &mut Stdin, room: &mut [u8]) -> Input
    ensures { result.«count» ≤ length room.new }
{
    let mut count = 0;
    while count < room.len() {
        match stdin.read(&mut room[count..]) {
            Ok(0) => break,
            Ok(more) => count += more,
            Err(_) => {
                return Input {
                    failed: true,
                    count,
                };
            }
        }
    }
    Input {
        failed: false,
        count,
    }
}

// The first n bytes of a room; whether all could be written.
fn print(stdout: &mut Stdout, room: &[u8], n: usize) -> bool {
    n <= room.len() && stdout.write_all(&room[0..n]).is_ok()
}

// `refused`, number, section, place.
fn refuse(stdout: &mut Stdout, r: Listed) -> bool {
    let mut room = [0u8; REFUSAL_BYTES];
    let mut page = Page {
        out: &mut room,
        at: 0,
    };
    report::line::refused(&mut page, r.number, r.section, r.place);
    let n = page.at;
    print(stdout, &room, n)
}

// Reads a text too long to its end, so that who writes it is not cut off; a proved loop has to end, so it counts.
fn drain(stdin: &mut Stdin) {
    let mut more = [0u8; 4096];
    for _ in 0..u64::MAX {
        match stdin.read(&mut more) {
            Ok(0) | Err(_) => return,
            Ok(_) => {}
        }
    }
}

// The listing of a text, or its refusal; whether all could be written.
fn list(stdout: &mut Stdout, text: &[u8]) -> bool {
    let mut store = [0u8; TEXT_BYTES];
    let mut tree = [0u8; TREE_BYTES];
    let mut out = [0u8; OUTPUT_BYTES];
    let r = preset::listing::listing(text, &NAME, &mut store, &mut tree, &mut out);
    if r.number == 0 {
        print(stdout, &out, r.written)
    } else {
        refuse(stdout, r)
    }
}

fn main(rt: HostRuntime) {
    let mut room = [0u8; INPUT_BYTES];
    let input = read_input(&mut rt.stdin(), &mut room);
    if input.failed {
        let _ = rt
            .stderr()
            .write_all(b"listing: standard input cannot be read\n");
        return;
    }
    let n = input.count;
    if n == INPUT_BYTES {
        drain(&mut rt.stdin());
    }
    if !list(&mut rt.stdout(), &room[0..n]) {
        let _ = rt
            .stderr()
            .write_all(b"listing: standard output cannot be written\n");
    }
}
