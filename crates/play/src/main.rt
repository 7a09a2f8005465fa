#![tactic(auto)]

// Reads one tone message from standard input and prints its playing list.
//
// All that matters is in the library, and `list_text` makes the text. Here the message is read to its end, and the text is
// written in one piece.
ghost use Rattle.std.specs.Prelude.{◌≡◌, ◌≤◌, length, IfOk};

use bits::OctetCount;
use std::io;
use std::io::{Read, Write};

// Reads to the end of the input or of the buffer, in as many pieces as come, and answers how many octets came.
fn read_input(input: &mut impl Read, buf: &mut [u8]) -> io::Result<OctetCount>
    ensures { (length buf.new ≡ length buf.old) × IfOk result (λ n. n.0 ≤ length buf.old) }
{
    let mut at = 0;
    while at < buf.len() {
        match input.read(&mut buf[at..])? {
            0 => break,
            n => at += n,
        }
    }
    Ok(OctetCount(at))
}

// Writes the answer to a message. There is room for 4,096 entries of three cells, and for 26 octets of text for each cell.
fn show(output: &mut impl Write, msg: &[u8]) -> io::Result<()> {
    let mut list = [0u32; 12288];
    let mut text = [0u8; 319552];
    let end = list_text::answer(msg, &mut list, &mut text);
    output.write_all(&text[..end.0])
}

// One octet more than a message may have is enough to refuse it. What cannot be read or written is told on standard error:
// if that cannot be written either, nothing is left to tell it on.
fn main(rt: HostRuntime) {
    let mut msg = [0u8; 4097];
    let Ok(n) = read_input(&mut rt.stdin(), &mut msg) else {
        let _ = eprintln!(rt; "play: standard input cannot be read");
        return;
    };
    if show(&mut rt.stdout(), &msg[..n.0]).is_err() {
        let _ = eprintln!(rt; "play: standard output cannot be written");
    }
}
