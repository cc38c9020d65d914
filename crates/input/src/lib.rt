// The bytes of an input, all of them or none: a read that fails is not taken for the end.
#![tactic(auto)]

ghost use Rattle.std.specs.Prelude.{◌≡◌, ◌<◌, ◌≤◌, [], IfOk, length, take, string_bytes, unwrap_or, option_map};
ghost use Rattle.std.specs.List.{slice_get};
ghost use Rattle.std.specs.Io.{ReadsAtMost};
ghost use Rattle.std.specs.Io.KnownBytes.{Consumes, IsAtEnd};

use std::io::{ErrorKind, Read};
use std::rt::{Env, Files};
use std::{env, fs, io};

// Room for the bytes of a hall file and one more, by which a longer file is known.
pub const ROOM: usize = 65_537;

// One read, made again where a signal interrupts it. A proved loop has to end: this one counts to a number that no run reaches.
fn read_some<R: Read>(reader: &mut R, buf: &mut [u8]) -> io::Result<usize>
    ensures bound { ReadsAtMost result buf.new }
    ensures bytes { IfOk result (λ n. Consumes (R.remaining reader.old) (R.remaining reader.new) (take n buf.new)) }
    ensures end { IfOk result (λ n. n ≡ 0 → 0 < length buf.old → IsAtEnd (R.remaining reader.new)) }
{
    for _ in 0..u64::MAX {
        match reader.read(buf) {
            Ok(n) => return Ok(n),
            Err(error) => {
                if error.kind() != ErrorKind::Interrupted {
                    return Err(error);
                }
            }
        }
    }
    Err(io::Error::from(ErrorKind::Interrupted))
}

// Reads until the input ends or the buffer is full, and gives how many bytes stand at the front of the buffer.
pub fn read_all<R: Read>(reader: &mut R, buf: &mut [u8]) -> io::Result<usize>
    ensures bound { ReadsAtMost result buf.new }
    ensures bytes { IfOk result (λ n. Consumes (R.remaining reader.old) (R.remaining reader.new) (take n buf.new)) }
    ensures end { IfOk result (λ n. n < length buf.new → IsAtEnd (R.remaining reader.new)) }
{
    let mut size: usize = 0;
    while size < buf.len() {
        let more = read_some(reader, &mut buf[size..])?;
        if more == 0 {
            break;
        }
        size += more;
    }
    Ok(size)
}

fn open_and_read<R: Files>(rt: &R, name: &str, buf: &mut [u8]) -> io::Result<usize>
    ensures { ReadsAtMost result buf.new }
{
    let mut file = fs::open(rt, name)?;
    read_all(&mut file, buf)
}

// Answers the bytes of a file by its name, as many as fit. Where it cannot be opened or read, standard error says why, and nothing is answered.
pub fn answer_file<R: Files + Eprint, F: FnOnce(&[u8]) -> io::Result<()>>(
    rt: &R,
    name: &str,
    answer: F,
) -> io::Result<()>
    requires { F.IsAlwaysCallable answer }
{
    let mut room = [0; ROOM];
    match open_and_read(rt, name, &mut room) {
        Ok(size) => answer(&room[..size]),
        Err(error) => eprintln!(rt; "{name}: {error}"),
    }
}

// The words that a program is started with, after its own name.
fn arguments<R: Env + AllocGlobal>(rt: &R) -> io::Result<Vec<String>> {
    let words = env::args(rt)?.skip(1).collect(rt.alloc())?;
    Ok(words)
}

// Answers the words that a program is started with, so many at a time, and the last ones that are left. It ends where an answer fails.
pub fn answer_each<R: Env + AllocGlobal, F: Fn(&[String]) -> io::Result<()>>(
    rt: &R,
    size: usize,
    answer: F,
) -> io::Result<()>
    requires { (1 ≤ size) × F.IsAlwaysCallable answer }
{
    let words = arguments(rt)?;
    for asked in words.chunks(size) {
        answer(asked)?;
    }
    Ok(())
}

// The word at a place, from 0; the empty text where there is none, and no option: programs print it as it is.
pub fn argument(words: &[String], place: usize) -> &str
    ensures { result.now ≡ unwrap_or (option_map string_bytes (slice_get words.now place)) [] }
{
    words.get(place).map_or("", |word| word.as_str())
}
