// Reads a problem file from standard input and prints what became of each call, and the verdict.
#![tactic(auto)]

ghost use Rattle.std.specs.Prelude.{ℕ, ◌≤◌, IfOk, length};

use arrayvec::ArrayVec;
use file::call::{BYTES, LARGEST};
use judge::judged::Judged;
use judge::judging::judge;
use std::io;
use std::io::Read;

// One byte more than the largest file: so much input is no file, and need not be read to its end.
const TOO_MUCH: usize = BYTES * LARGEST + 1;

// What comes from standard input, up to so much. It lies in fixed memory: there is no want of memory for it.
fn read_input<'a>(rt: &HostRuntime, buffer: &'a mut ArrayVec<u8, TOO_MUCH>) -> io::Result<&'a [u8]>
    ensures { IfOk result (λ bytes. length bytes.now ≤ 65521) }
{
    io::copy(&mut rt.stdin().take(TOO_MUCH as u64), buffer)?;
    Ok(buffer.as_slice())
}

fn print_judged(rt: &HostRuntime, judged: &Judged) -> io::Result<()> {
    for line in (0..LARGEST).map_while(|index| judged.line(index)) {
        println!(rt; "{line}")?;
    }
    let last = judged.last_line();
    println!(rt; "{last}")
}

fn main(rt: HostRuntime) -> anyhow::Result<()> {
    let mut buffer = ArrayVec::new();
    match judge(read_input(&rt, &mut buffer)?) {
        Ok(judged) => print_judged(&rt, &judged)?,
        Err(fault) => println!(rt; "{fault}")?,
    }
    Ok(())
}
