#![tactic(auto)]

ghost use Rattle.std.specs.Prelude.{◌≡◌, [], ◌∷◌, ◌+◌, ◌-◌, ◌*◌, ◌/◌, ◌%◌, ◌^◌, ◌≤◌, ◌<◌, length, get_or, drop};
ghost use Rattle.bits.specs.Bits.{bits_n, bits_of, num, field, place_after, octets_before, octets_to, filler_to};
ghost use Rattle.bits.specs.Window.{four, eight, Look, Sight, Sights};
ghost use Rattle.bits.specs.Sink.{written, InHand, Stored, Put, Sealed};

mod refusal;

pub use refusal::{Ground, Refusal};

// A place in a message: how many bits stand ahead of it.
#[derive(Clone, Copy, PartialEq, Eq)]
pub struct BitPlace(pub usize);

// A number of whole octets.
#[derive(Clone, Copy)]
pub struct OctetCount(pub usize);

// The place where so many octets end.
pub fn place_after(n: OctetCount) -> BitPlace
    requires { n.0 < 2 ^ 60 }
    ensures { result.0 ≡ place_after n.0 }
{
    BitPlace(8 * n.0)
}

// The whole octets ahead of a place.
pub fn octets_before(p: BitPlace) -> OctetCount
    ensures { result.0 ≡ octets_before p.0 }
{
    OctetCount(p.0 / 8)
}

// The octets that reach a place: as many as begin ahead of it.
pub fn octets_to(p: BitPlace) -> OctetCount
    requires { p.0 < 2 ^ 63 }
    ensures { result.0 ≡ octets_to p.0 }
{
    octets_before(BitPlace(p.0 + 7))
}

// The octet behind so many, 0 past the end.
fn octet(s: &[u8], at: OctetCount) -> u32
    ensures { (result ≡ get_or s.now at.0 0) × (result < 256) }
{
    let i = at.0;
    if i < s.len() { s[i] as u32 } else { 0 }
}

// Four octets as one number.
fn word(a: u8, b: u8, c: u8, d: u8) -> u32
    ensures { result ≡ num (bits_of (a ∷ b ∷ c ∷ d ∷ [])) }
{
    u32::from(a) * 16777216 + u32::from(b) * 65536 + u32::from(c) * 256 + u32::from(d)
}

// The four octets behind so many as one number, 0 past the end.
fn near_end(s: &[u8], at: OctetCount) -> u32
    requires { at.0 < 2 ^ 63 + 4 }
    ensures { result ≡ num (bits_of (four s.now at.0)) }
{
    let i = at.0;
    octet(s, at) * 16777216
        + octet(s, OctetCount(i + 1)) * 65536
        + octet(s, OctetCount(i + 2)) * 256
        + octet(s, OctetCount(i + 3))
}

// The same. Away from the end it is one load.
fn window(s: &[u8], at: OctetCount) -> u32
    requires { at.0 ≤ length s.now }
    ensures { result ≡ num (bits_of (four s.now at.0)) }
{
    let i = at.0;
    if 4 <= s.len() - i {
        return word(s[i], s[i + 1], s[i + 2], s[i + 3]);
    }
    near_end(s, at)
}

// The eight octets behind so many as one number, where they are there. It is one load.
fn wide_word(s: &[u8], at: OctetCount) -> u64
    requires { at.0 + 8 ≤ length s.now }
    ensures { (result ≡ num (bits_of (eight s.now at.0))) × (result < 2 ^ 64) }
{
    let i = at.0;
    let high = word(s[i], s[i + 1], s[i + 2], s[i + 3]);
    let low = word(s[i + 4], s[i + 5], s[i + 6], s[i + 7]);
    ((high as u64) << 32) + low as u64
}

// The eight octets behind so many as one number, 0 past the end. Away from the end it is one load.
fn wide_window(s: &[u8], at: OctetCount) -> u64
    requires { at.0 ≤ length s.now }
    ensures { result ≡ num (bits_of (eight s.now at.0)) }
{
    let i = at.0;
    if 8 <= s.len() - i {
        return wide_word(s, at);
    }
    ((near_end(s, at) as u64) << 32) + near_end(s, OctetCount(i + 4)) as u64
}

// The 24 bits at a place, whatever stands past the end.
pub fn look(s: &[u8], at: BitPlace) -> u32
    requires { at.0 ≤ place_after (length s.now) }
    ensures { Look (drop at.0 (bits_of s.now)) result }
{
    (window(s, octets_before(at)) >> (8 - at.0 % 8)) % 16777216
}

// The 57 bits at a place, on top of a number, whatever stands past the end.
pub fn sight(s: &[u8], at: BitPlace) -> u64
    requires { at.0 ≤ place_after (length s.now) }
    ensures { Sight 57 (drop at.0 (bits_of s.now)) result }
{
    wide_window(s, octets_before(at)) << (at.0 % 8)
}

// The same, where eight octets are there. It is one load, and small enough to be laid in everywhere.
pub fn inner_sight(s: &[u8], at: BitPlace) -> u64
    requires { octets_before at.0 + 8 ≤ length s.now }
    ensures { Sight 57 (drop at.0 (bits_of s.now)) result }
{
    wide_word(s, octets_before(at)) << (at.0 % 8)
}

// The 64 bits at a place, where they are there.
pub fn full_sight(s: &[u8], at: BitPlace) -> u64
    requires { at.0 + 64 ≤ place_after (length s.now) }
    ensures { Sight 64 (drop at.0 (bits_of s.now)) result }
{
    let i = octets_before(at);
    let o = at.0 % 8;
    let eight = wide_word(s, i);
    if o == 0 {
        return eight;
    }
    (eight << o) + (u32::from(s[i.0 + 8]) >> (8 - o)) as u64
}

// The 121 bits at a place, in two numbers: the first 64, and the others on top of the second.
#[derive(Clone, Copy)]
pub struct TwoSights {
    pub first: u64,
    pub second: u64,
}

// The 121 bits at a place, where sixteen octets are there. It is two loads. The second word is moved down in two shifts, so that none is by 64.
pub fn two_sights(s: &[u8], at: BitPlace) -> TwoSights
    requires { octets_before at.0 + 16 ≤ length s.now }
    ensures { Sights (drop at.0 (bits_of s.now)) result.first result.second }
{
    let i = octets_before(at);
    let o = at.0 % 8;
    let a = wide_word(s, i);
    let b = wide_word(s, OctetCount(i.0 + 8));
    TwoSights {
        first: (a << o) + ((b >> 1) >> (63 - o)),
        second: b << o,
    }
}

// The bits that stand `k` bits behind the place of two sights, on top of a number: 64 of them, but no more than are left of the 121.
pub fn sight_behind(v: TwoSights, k: u32) -> u64
    requires { k ≤ 63 }
    ensures { result ≡ v.first * 2 ^ k % 2 ^ 64 + v.second / 2 ^ (64 - k) }
{
    (v.first << k) + ((v.second >> 1) >> (63 - k))
}

// The octet at a place, out of two octets of which the second is there too.
pub fn octet_at(s: &[u8], at: BitPlace) -> u8
    requires { at.0 + 16 ≤ place_after (length s.now) }
    ensures { result ≡ field (bits_of s.now) at.0 8 }
{
    let i = octets_before(at).0;
    let two = u32::from(s[i]) * 256 + u32::from(s[i + 1]);
    ((two >> (8 - at.0 % 8)) % 256) as u8
}

// The bits from a place through the first whole octet, on top of a number, whatever stands below them. Two octets hold them.
pub fn through_octet(s: &[u8], at: BitPlace) -> u64
    requires { (at.0 < 2 ^ 63) × (octets_to at.0 < length s.now) }
    ensures { Sight (filler_to at.0 + 8) (drop at.0 (bits_of s.now)) result }
{
    let i = octets_before(at).0;
    let j = octets_to(at).0;
    let two = u32::from(s[i]) * 256 + u32::from(s[j]);
    (two as u64) << (48 + at.0 % 8)
}

// The `w` bits that stand `o` bits into 24.
pub fn part(x: u32, o: u32, w: u32) -> u32
    requires { (x < 16777216) × (1 ≤ o + w) × (o + w ≤ 24) }
    ensures { (result ≡ x / 2 ^ (24 - (o + w)) % 2 ^ w) × (result < 2 ^ w) }
{
    (x >> (24 - (o + w))) & ((1u32 << w) - 1)
}

// Stores the four octets of a word behind so many. It is one store.
fn store(buf: &mut [u8], at: OctetCount, word: u32)
    requires { at.0 + 4 ≤ length buf.old }
    ensures { Stored word buf.old buf.new at.0 }
{
    let i = at.0;
    buf[i] = (word / 16777216) as u8;
    buf[i + 1] = (word / 65536 % 256) as u8;
    buf[i + 2] = (word / 256 % 256) as u8;
    buf[i + 3] = (word % 256) as u8;
}

// Where a row of bits that is being written has come to: whole octets, and `n` bits in hand, fewer than 32, that spell `acc`.
#[derive(Clone, Copy)]
pub struct Sink {
    pub octets: OctetCount,
    pub n: u32,
    pub acc: u64,
    pub ghost in_hand: { InHand n acc },
}

impl Sink {
    // Behind so many octets, with nothing in hand.
    pub fn at(octets: OctetCount) -> Sink
        ensures { (result.octets.0 ≡ octets.0) × (result.n ≡ 0) × (result.acc ≡ 0) }
    {
        Sink {
            octets,
            n: 0,
            acc: 0,
        }
    }

    // Writes the `w` bits that spell `v`. They stay in hand until there are 32.
    pub fn put(self, buf: &mut [u8], w: u32, v: u32) -> Sink
        requires { (w ≤ 24) × (v < 2 ^ w) × (place_after self.octets.0 + self.n + w ≤ place_after (length buf.old)) }
        ensures { Put (written buf.old self.octets.0 self.n self.acc) (bits_n w v) (place_after self.octets.0 + self.n + w) buf.old buf.new result.octets.0 result.n result.acc }
    {
        let octets = self.octets;
        let n = self.n + w;
        let acc = (self.acc << w) + v as u64;
        if n < 32 {
            return Sink { octets, n, acc };
        }
        let left = n - 32;
        store(buf, octets, (acc >> left) as u32);
        Sink {
            octets: OctetCount(octets.0 + 4),
            n: left,
            acc: acc & ((1u64 << left) - 1),
        }
    }

    // Writes zeros to the octet's end, and an octet 0. It answers how many octets there are.
    pub fn seal(self, buf: &mut [u8]) -> OctetCount
        requires { octets_to (place_after self.octets.0 + self.n) + 1 ≤ length buf.old }
        ensures { Sealed (written buf.old self.octets.0 self.n self.acc) (place_after self.octets.0 + self.n) buf.old buf.new result.0 }
    {
        let zeros = (8 - self.n % 8) % 8 + 8;
        let bits = self.acc << zeros;
        let mut at = self.octets.0;
        let mut left = self.n + zeros;
        while 8 <= left {
            left -= 8;
            buf[at] = ((bits >> left) % 256) as u8;
            at += 1;
        }
        OctetCount(at)
    }
}
