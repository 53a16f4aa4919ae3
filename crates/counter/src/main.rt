// The counter program: a name a line from standard input, against the table file names.tab. 01, "Names at the counter".
#![tactic(auto)]

ghost use Rattle.std.specs.Prelude.{◌^◌, ◌≤◌, length};
ghost use Rattle.std.specs.Io.{ReadsAtMost};
ghost use Rattle.table_file.specs.File.{most_table};
ghost use Rattle.taking.specs.Promise.{Ready};
ghost use Rattle.counter.specs.Promise.{Loaded, Reads};

use answers::UnpackError;
use serving::{ENDING_ROOM, write_ending};
use std::fs::File;
use std::io;
use std::io::{Read, Write};
use std::rt::Files;
use table_file::{MOST_FILE, MOST_TABLE, read_table};
use taking::{State, bad, take_piece};

// The most bytes that one read of the input takes.
const MOST_PIECE: usize = 4096;

// So many reads are more than any run makes.
const MOST_TURNS: u64 = 1 << 50;

// One read. It stands apart, and is made a part of no caller: there clang may take what was read for at least one byte, and the end of the
// input is not seen.
#[inline(never)]
fn read_some<R: Read>(input: &mut R, buf: &mut [u8]) -> io::Result<usize>
    ensures { ReadsAtMost result buf.new }
{
    input.read(buf)
}

// Reads until `buf` is full, the input ends or a read fails, and answers how many bytes it put at the front of `buf`.
fn read_full<R: Read>(input: &mut R, buf: &mut [u8]) -> usize
    ensures { result ≤ length buf.new }
{
    let mut done = 0;
    // by hand: the step is what a read gives
    while done < buf.len() {
        let Ok(n) = read_some(input, &mut buf[done..]) else {
            break;
        };
        if n == 0 {
            break;
        }
        done += n;
    }
    done
}

// Reads the table file into `words`: one byte more than it may have, so that one that is too long is seen to be. One that is missing has a
// wrong length.
fn load<F: Files>(files: &F, words: &mut [u32]) -> Result<usize, UnpackError>
    requires { most_table ≤ length words.old }
    ensures { Loaded (length words.old) result }
{
    let Ok(mut opened) = File::open(files, "names.tab") else {
        return Err(UnpackError::WrongLength);
    };
    let mut file = [0u8; MOST_FILE + 1];
    let n = read_full(&mut opened, &mut file);
    read_table(&file[..n], words)
}

// The input has ended: the last line, where one is held, and the count of names.
fn finish<W: Write>(out: &mut W, table: &[u32], line: &[u8], state: State)
    requires { Ready line.now state (2 ^ 63) }
{
    let held = state.held;
    let mut text = [0u8; ENDING_ROOM];
    let n = write_ending(table, &line[..held], state.names, &mut text);
    let _ = out.write_all(&text[..n]);
}

// Reads once, and takes what came; `None` at the end.
fn read_piece<R: Read, W: Write>(
    input: &mut R,
    out: &mut W,
    table: &[u32],
    line: &mut [u8],
    state: State,
) -> Option<State>
    requires { Ready line.old state (2 ^ 63) }
    ensures { Reads line.old line.new state result }
{
    let mut piece = [0u8; MOST_PIECE];
    let Ok(n) = read_some(input, &mut piece) else {
        bad(out);
        return None;
    };
    if n == 0 {
        finish(out, table, line, state);
        return None;
    }
    take_piece(out, table, &piece[..n], line, state)
}

// Reads to the end of the input. A proved loop has to end, so it counts its turns.
fn run<R: Read, W: Write>(input: &mut R, out: &mut W, table: &[u32]) {
    let mut line = [0u8; line_reading::MOST_LINE];
    let mut state = State { held: 0, names: 0 };
    for _ in 0..MOST_TURNS {
        let Some(next) = read_piece(input, out, table, &mut line, state) else {
            return;
        };
        state = next;
    }
}

fn main(rt: HostRuntime) {
    let mut out = rt.stdout();
    let mut words = [0u32; MOST_TABLE];
    let Ok(count) = load(&rt, &mut words) else {
        bad(&mut out);
        return;
    };
    run(&mut rt.stdin(), &mut out, &words[..count]);
}
