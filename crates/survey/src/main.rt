// The program of document 01: it reads standard input in chunks, hands each on to `lines`, and writes what that prints before it reads again, so that it can
// stand in a pipe. A reading error or a closed pipe ends it quietly with what was answered so far.
#![tactic(auto)]

ghost use Rattle.std.specs.Prelude.{IfOk};
ghost use Rattle.lines.specs.Reading.{Sound};
ghost use Rattle.survey.specs.Turns.{Filled, Empty};

use lines::{Desk, Reader};
use std::io::{self, Read, Stdin, Stdout, Write};
use texts::Output;

// Writes out what was printed, and empties the output.
fn write_out(mut output: Stdout, out: &mut Output) -> io::Result<()>
    requires { Filled out.old }
    ensures { IfOk result (λ _. Empty out.new) }
{
    let end = out.len;
    output.write_all(&out.bytes[..end])?;
    out.clear();
    Ok(())
}

// As much of a chunk as the output has room for, handed on, and what it prints written.
fn pass(
    output: Stdout,
    chunk: &[u8],
    reader: Reader,
    desk: &mut Desk,
    out: &mut Output,
) -> io::Result<Reader>
    requires { Sound reader desk.old × Empty out.old }
    ensures { IfOk result (λ after. Sound after desk.new × Empty out.new) }
{
    let after = reader.feed(chunk, desk, out);
    write_out(output, out)?;
    Ok(after)
}

// A chunk, handed on again whenever the output was full; the reader after it. Each turn reads a byte at least, so the turns are enough.
fn hand_on(
    output: Stdout,
    chunk: &[u8],
    reader: Reader,
    desk: &mut Desk,
    out: &mut Output,
) -> io::Result<Reader>
    requires { Sound reader desk.old × Empty out.old }
    ensures { IfOk result (λ after. Sound after desk.new × Empty out.new) }
{
    let mut after = reader;
    for _ in 0..chunk.len() {
        after = pass(output, chunk, after, desk, out)?;
        if after.state.is_none() || chunk.len() <= after.at {
            return Ok(after);
        }
    }
    Ok(after)
}

// The end of the input: the last line, if its line feed is missing.
fn end(output: Stdout, reader: Reader, desk: &mut Desk, out: &mut Output) -> io::Result<()>
    requires { Sound reader desk.old × Empty out.old }
    ensures { IfOk result (λ _. Empty out.new) }
{
    let few = reader.line < 4611686018427387904;
    if few {
        reader.finish(desk, out);
        write_out(output, out)?;
    }
    Ok(())
}

// Reads once, and hands on what came; after the end of the input the reader has stopped.
fn turn(
    mut input: Stdin,
    output: Stdout,
    reader: Reader,
    desk: &mut Desk,
    out: &mut Output,
) -> io::Result<Reader>
    requires { Sound reader desk.old × Empty out.old }
    ensures { IfOk result (λ after. Sound after desk.new × Empty out.new) }
{
    let mut buffer = [0u8; 65536];
    let n = input.read(&mut buffer)?;
    if n > 0 {
        return hand_on(output, &buffer[..n], reader.next_chunk(), desk, out);
    }
    end(output, reader, desk, out)?;
    Ok(Reader::stopped())
}

// Nothing says that the input ends, so the turns are counted up to a number that no run reaches.
fn run(input: Stdin, output: Stdout, desk: &mut Desk, out: &mut Output) -> io::Result<()>
    requires { Empty out.old }
{
    let mut reader = Reader::start();
    for _ in 0..u64::MAX {
        reader = turn(input, output, reader, desk, out)?;
        if reader.state.is_none() {
            return Ok(());
        }
    }
    Ok(())
}

fn main(rt: HostRuntime) {
    let mut cells = [0i32; 1024];
    let mut index = [0i32; 7684];
    let mut numbers = [0i32; 256];
    let mut carry = [0u8; 80];
    let mut desk = Desk::new(&mut cells, &mut index, &mut numbers, &mut carry);
    let mut bytes = [0u8; 65536];
    let mut out = Output {
        bytes: &mut bytes,
        len: 0,
    };
    // an error ends the program as quietly as the end of the input does
    let _ = run(rt.stdin(), rt.stdout(), &mut desk, &mut out);
}
