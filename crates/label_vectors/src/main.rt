#![tactic(auto)]

// Runs the cases of labels and prints what the calls answer, two lines for each case. What it must print was worked out
// from the rules by other means.
//
// The cases are lines of standard input, each a letter, a space and what it says:
//
//   # ..      a remark, passed over
//   t HEX     puts a title in hand
//   s HEX     puts a stand-in in hand
//   l NAME    takes the label of what is in hand, with characters of 8 bits and of 16
//
// A call leaves nothing in hand.
//
// A line of output has the name, the width, the numbers of the answer (0 for the title or 1 for the stand-in, and the
// label's octets), and the label itself, its octets counted.
//
//   NAME, WIDTH bits: supplier octets: octets label
ghost use Rattle.std.specs.Prelude.{◌≤◌, length};

use label::Supplier;

// How many octets of a title and of a stand-in are in hand.
#[derive(Clone, Copy)]
struct InHand {
    title: usize,
    stand_in: usize,
}

// ---- printing

// Prints the numbers of the answer.
fn show_supplied(title: &[u8], unicode: bool, stand_in: &[u8]) {
    match label::supplied(title, unicode, stand_in) {
        Supplier::Title(n) => {
            io::write_all(1, b" 0");
            vectors::number(n.0 as u64);
        }
        Supplier::StandIn(n) => {
            io::write_all(1, b" 1");
            vectors::number(n.0 as u64);
        }
    }
}

// Prints the numbers, and then the label itself.
fn show<'a, 'b: 'a>(title: &'a [u8], unicode: bool, stand_in: &'b [u8]) {
    show_supplied(title, unicode, stand_in);
    vectors::show_part(label::label(title, unicode, stand_in));
    io::write_all(1, b"\n");
}

// One title in both widths.
fn case<'a, 'b: 'a>(name: &[u8], title: &'a [u8], stand_in: &'b [u8]) {
    io::write_all(1, name);
    io::write_all(1, b", 8 bits:");
    show(title, false, stand_in);
    io::write_all(1, name);
    io::write_all(1, b", 16 bits:");
    show(title, true, stand_in);
}

// ---- the text

// Takes the label of what is in hand, as a line says.
fn label_case<'a, 'b: 'a>(line: &[u8], hand: InHand, title: &'a [u8], stand_in: &'b [u8])
    requires { 2 ≤ length line.now }
{
    let title_end = hand.title;
    let stand_in_end = hand.stand_in;
    if title.len() < title_end {
        return;
    }
    if stand_in.len() < stand_in_end {
        return;
    }
    case(&line[2..], &title[0..title_end], &stand_in[0..stand_in_end]);
}

// Does what a line says, and answers what is then in hand.
fn act(line: &[u8], hand: InHand, title: &mut [u8; 64], stand_in: &mut [u8; 64]) -> InHand {
    if line.len() < 2 {
        return hand;
    }
    let letter = line[0];
    if letter == b't' {
        return InHand {
            title: vectors::add_octets(line, 2, title, 0),
            stand_in: hand.stand_in,
        };
    }
    if letter == b's' {
        return InHand {
            title: hand.title,
            stand_in: vectors::add_octets(line, 2, stand_in, 0),
        };
    }
    if letter == b'l' {
        label_case(line, hand, title, stand_in);
        return InHand {
            title: 0,
            stand_in: 0,
        };
    }
    hand
}

// Does what each line of a text says.
fn run(text: &[u8]) {
    let mut title = [0u8; 64];
    let mut stand_in = [0u8; 64];
    let mut hand = InHand {
        title: 0,
        stand_in: 0,
    };
    let mut at = 0;
    while at < text.len() {
        hand = act(vectors::line(text, at), hand, &mut title, &mut stand_in);
        at = vectors::next_line(text, at);
    }
}

fn main() {
    let mut text = [0u8; 2048];
    let n = vectors::read_text(&mut text);
    run(&text[..n]);
}
