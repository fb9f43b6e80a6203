ghost use Rattle.std.specs.Prelude.{IfOk, IsSome};
ghost use Rattle.outside_io.specs.Scripts.{IsRising};

use crate::literals::{bytes as text, check_each, halves};
use chunk_data::{Bytes, List};
use outside_io::{
    Fake, FakeKind, FileEntry, FileReader, Got, MemFiles, MemSink, RealFiles, RealSink, Sink,
    write_all,
};
use std::alloc::{AllocError, Global};
use std::fs;
use std::str::from_utf8;
use std::test::Fail;

/// What four reads of four bytes answer, a letter each: a digit for a block, `e` for the end, `p`
/// for pending, `f` for failed. The bytes of the blocks follow.
fn add_reads<F: FileReader>(reader: &mut F, out: &mut String) -> Result<(), AllocError>
    requires { IsSome (F.reader reader.old).position }
{
    let mut bytes = String::new(*out.allocator());
    let mut buf = [0u8; 4];
    for _ in 0..4 {
        let letter = match reader.read_some(&mut buf) {
            Ok(Got::Bytes(n)) => {
                bytes.push_str(from_utf8(&buf[..n]).unwrap_or("?"))?;
                if n == 4 { '4' } else { '2' }
            }
            Ok(Got::End) => 'e',
            Ok(Got::Pending) => 'p',
            Err(_) => 'f',
        };
        out.push(letter)?;
    }
    out.push_str(bytes.as_str())
}

/// Opens the path and reads it; the letters are `o` or `f` for the opening, and those of the reads.
fn add_letters<F: FileReader>(
    reader: &mut F,
    path: &Bytes,
    out: &mut String,
) -> Result<(), AllocError> {
    match reader.open_path(path) {
        Ok(()) => {
            out.push('o')?;
            add_reads(reader, out)?;
        }
        Err(_) => out.push('f')?,
    }
    reader.shut();
    out.push(' ')
}

fn add_each<F: FileReader>(reader: &mut F, paths: &[&[u8]], out: &mut String) -> Result<(), Fail> {
    for path in paths {
        add_letters(reader, &Bytes::from_slice(*out.allocator(), path)?, out)?;
    }
    Ok(())
}

fn files(alloc: Global) -> Result<List<FileEntry>, Fail> {
    let mut files = Vec::new(alloc);
    for file in ["empty=", "six=abcdef", "six=hidden"] {
        let (path, content) = halves(file, '=');
        files.push(FileEntry {
            path: text(alloc, path)?,
            bytes: text(alloc, content)?,
        })?;
    }
    Ok(List::from_vec(files))
}

fn script(alloc: Global, call: u64, letter: &str) -> Result<List<Fake>, AllocError>
    ensures { IfOk result (λ script. IsRising script) }
{
    let kind = match letter {
        "p" => FakeKind::Pend,
        _ => FakeKind::Fail,
    };
    Ok(List::from_vec(vec![in alloc; Fake { call, kind }]?))
}

// The call that is pending or fails, none for 0, and the paths that one reader opens.
fn reads_text(alloc: Global, text: &str) -> Result<String, Fail> {
    let (call, rest) = halves(text, ' ');
    let (kind, paths) = halves(rest, ' ');
    let script = script(alloc, call.parse().unwrap_or(0), kind)?;
    let mut reader = MemFiles::new(alloc, files(alloc)?, script);
    let mut out = String::new(alloc);
    for path in paths.split(' ') {
        add_letters(
            &mut reader,
            &Bytes::from_slice(alloc, path.as_bytes())?,
            &mut out,
        )?;
    }
    Ok(out)
}

static SCRIPTS: [&str; 11] = [
    "9 f six~o42eeabcdef ",
    "1 f six~f ",
    "1 p six~f ",
    "2 f six~of42eabcdef ",
    "2 p six~op42eabcdef ",
    "3 f six~o4f2eabcdef ",
    "3 p six~o4p2eabcdef ",
    "4 f six~o42feabcdef ",
    "4 p six~o42peabcdef ",
    "5 p six~o42epabcdef ",
    "0 f empty five six~oeeee f o42eeabcdef ",
];

#[test]
fn memory_files_open_what_is_there_and_follow_their_script(rt: HostRuntime) -> Result<(), Fail> {
    check_each(&rt, rt.alloc(), &SCRIPTS, reads_text)
}

// A sink with room for five bytes: whether it took each piece whole, and what it then holds.
fn writes_text(alloc: Global, text: &str) -> Result<String, Fail> {
    let mut sink = MemSink::new(alloc, 1, 5)?;
    let mut out = String::new(alloc);
    for piece in text.split(' ') {
        let whole = write_all(&mut sink, piece.as_bytes()).is_ok();
        write!(out, "{whole} {} ", from_utf8(sink.written()).unwrap_or("?"))?;
    }
    Ok(out)
}

#[test]
fn memory_sink_takes_steps_up_to_its_room(rt: HostRuntime) -> Result<(), Fail> {
    let case = "ab  cd efg h ~true ab true ab true abcd false abcde false abcde true abcde ";
    check_each(&rt, rt.alloc(), &[case], writes_text)
}

#[test]
fn real_files_read_back_what_was_written(rt: HostRuntime) -> Result<(), Fail> {
    let name = "outside_io_read_back.txt";
    fs::write(&rt, name, "abcdef")?;
    let mut out = String::new(rt.alloc());
    let mut reader = RealFiles::new(rt.clone()?);
    add_each(&mut reader, &[name.as_bytes()], &mut out)?;
    fs::remove_file(&rt, name)?;
    add_each(&mut reader, &[name.as_bytes(), &[0xff], b"."], &mut out)?;
    assert!(rt; out.as_str() == "o42eeabcdef f f offff ");
    Ok(())
}

#[test]
fn real_sink_writes_through(rt: HostRuntime) {
    let mut bytes = Vec::new(rt.alloc());
    let mut sink = RealSink::new(&mut bytes);
    let mut whole = true;
    for piece in ["abc", "", "d"] {
        whole &= write_all(&mut sink, piece.as_bytes()).is_ok();
    }
    drop(sink);
    assert!(rt; whole && bytes.as_slice() == b"abcd".as_slice());
    let mut room = [0u8; 2];
    assert!(rt; write_all(&mut RealSink::new(room.as_mut_slice()), b"abc").is_err());
}
