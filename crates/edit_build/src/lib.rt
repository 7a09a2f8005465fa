#![tactic(auto)]

ghost use Rattle.std.specs.Prelude.{◌≡◌, ◌+◌, ◌-◌, ◌^◌, ◌≤◌, ◌<◌, length, take, drop};
ghost use Rattle.bits.specs.Bits.{bits_of, place_after, octets_to};
ghost use Rattle.bits.specs.Lent.{over};
ghost use Rattle.bits.specs.Sink.{written, Put};
ghost use Rattle.edit_build.specs.Anew.{Begun, Built, headed, reached, pieced, joined};

use bits::{BitPlace, OctetCount, Sink};

// ---- copying

// Copies so many octets from the front.
pub fn copy_octets(from: &[u8], octets: OctetCount, to: &mut [u8])
    requires { (octets.0 ≤ length from.now) × (octets.0 ≤ length to.old) }
    ensures { to.new ≡ over (take octets.0 from.now) to.old }
{
    let n = octets.0;
    to[..n].copy_from_slice(&from[..n]);
}

// Puts the `n` bits that stand at a place.
fn copy_bits(msg: &[u8], at: BitPlace, n: usize, out: &mut [u8], sink: Sink) -> Sink
    requires { (at.0 + n ≤ place_after (length msg.now)) × (length msg.now < 2 ^ 60) × (place_after sink.octets.0 + sink.n + n ≤ place_after (length out.old)) }
    ensures { Put (written out.old sink.octets.0 sink.n sink.acc) (take n (drop at.0 (bits_of msg.now))) (place_after sink.octets.0 + sink.n + n) out.old out.new result.octets.0 result.n result.acc }
{
    let mut s = sink;
    let mut place = at;
    let mut left = n;
    while 24 <= left {
        s = s.put(out, 24, bits::look(msg, place));
        place = BitPlace(place.0 + 24);
        left -= 24;
    }
    if left == 0 {
        return s;
    }
    let x = bits::look(msg, place);
    s.put(out, left as u32, bits::part(x, 0, left as u32))
}

// Copies the bits of a message up to a place to the start of a buffer.
fn copy_front(msg: &[u8], end: BitPlace, out: &mut [u8]) -> Sink
    requires { (end.0 ≤ place_after (length msg.now)) × (length msg.now < 2 ^ 60) × (end.0 ≤ place_after (length out.old)) }
    ensures { Begun (take end.0 (bits_of msg.now)) out.new result.octets.0 result.n result.acc }
{
    let whole = bits::octets_before(end);
    copy_octets(msg, whole, out);
    let at = bits::place_after(whole);
    copy_bits(msg, at, end.0 - at.0, out, Sink::at(whole))
}

// ---- building a message anew

// The bits ahead of a header, and the header.
fn put_header(msg: &[u8], head: BitPlace, cell: u32, out: &mut [u8]) -> Sink
    requires { (head.0 ≤ place_after (length msg.now)) × (length msg.now < 2 ^ 60) × (cell < 2 ^ 17) × (head.0 + 17 ≤ place_after (length out.old)) }
    ensures { Begun (headed (bits_of msg.now) head.0 cell) out.new result.octets.0 result.n result.acc }
{
    let s = copy_front(msg, head, out);
    s.put(out, 17, cell)
}

// Then the bits up to a place.
fn put_ahead(msg: &[u8], head: BitPlace, cell: u32, at: BitPlace, out: &mut [u8]) -> Sink
    requires { (head.0 + 17 ≤ at.0) × (at.0 ≤ place_after (length msg.now)) × (length msg.now < 2 ^ 60) × (cell < 2 ^ 17) × (at.0 ≤ place_after (length out.old)) }
    ensures { Begun (reached (bits_of msg.now) head.0 cell at.0) out.new result.octets.0 result.n result.acc }
{
    let s = put_header(msg, head, cell, out);
    let behind = BitPlace(head.0 + 17);
    copy_bits(msg, behind, at.0 - behind.0, out, s)
}

// Bits to put: how many, and the number that they spell.
#[derive(Clone, Copy)]
pub struct Piece {
    pub width: u32,
    pub value: u32,
}

// Then a piece.
fn put_piece(
    msg: &[u8],
    head: BitPlace,
    cell: u32,
    at: BitPlace,
    piece: Piece,
    out: &mut [u8],
) -> Sink
    requires head_bound { (head.0 + 17 ≤ at.0) × (at.0 ≤ place_after (length msg.now)) × (length msg.now < 2 ^ 60) × (cell < 2 ^ 17) × (at.0 + piece.width ≤ place_after (length out.old)) }
    requires width_bound { (piece.width ≤ 17) × (piece.value < 2 ^ piece.width) }
    ensures { Begun (pieced (bits_of msg.now) head.0 cell at.0 piece.width piece.value) out.new result.octets.0 result.n result.acc }
{
    let s = put_ahead(msg, head, cell, at, out);
    s.put(out, piece.width, piece.value)
}

// Where an instruction stands, where what is left behind it does, and where the patterns end.
#[derive(Clone, Copy)]
pub struct Spot {
    pub at: BitPlace,
    pub behind: BitPlace,
    pub end: BitPlace,
}

// Then the bits behind it up to the patterns' end, filler and the end octet.
pub fn build(
    msg: &[u8],
    header: BitPlace,
    cell: u32,
    spot: Spot,
    piece: Piece,
    out: &mut [u8],
) -> OctetCount
    requires header_bound { (header.0 + 17 ≤ spot.at.0) × (spot.at.0 ≤ place_after (length msg.now)) × (length msg.now < 2 ^ 60) × (cell < 2 ^ 17) }
    requires width_bound { (piece.width ≤ 17) × (piece.value < 2 ^ piece.width) × (spot.behind.0 ≤ spot.end.0) × (spot.end.0 ≤ place_after (length msg.now)) }
    requires behind_in_bounds { octets_to (spot.at.0 + piece.width + (spot.end.0 - spot.behind.0)) + 1 ≤ length out.old }
    ensures { Built (joined (bits_of msg.now) header.0 cell spot.at.0 piece.width piece.value spot.behind.0 spot.end.0) out.new result.0 }
{
    let at = spot.at;
    let behind = spot.behind;
    let s = put_piece(msg, header, cell, at, piece, out);
    let n = spot.end.0 - behind.0;
    let t = copy_bits(msg, behind, n, out, s);
    t.seal(out)
}
