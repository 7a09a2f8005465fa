#![tactic(auto)]

// What stands ahead of a bitmap: nothing ahead of a plain one, a version ahead of a CLI icon; version, network codes, date
// and line feed ahead of an operator logo.
ghost use Rattle.std.specs.Prelude.{◌≡◌, ◌∷◌, ◌++◌, ◌+◌, ◌≤◌, length, take, drop, true};
ghost use Rattle.bits.specs.Choice.{pick};
ghost use Rattle.bits.specs.Lent.{over};
ghost use Rattle.bitmap_ahead.specs.Digits.{digit, all_digits, digits_taken, date_octets, date_taken};
ghost use Rattle.bitmap_ahead.specs.Ahead.{said, ahead_octets, silent as silentOf, taken as taken_of, start_of, stands as standsOf};
ghost use Rattle.bitmap_ahead.specs.declared.Kind.TheVariants.{Logo};

use bits::OctetCount;

// The kinds of bitmaps.
#[derive(Clone, Copy)]
pub enum Kind {
    Plain,
    Icon,
    Logo,
}

// ---- Digits and dates.

// 1 for a digit, 0 for any other octet.
fn one_for_digit(x: u8) -> usize
    ensures { (result ≡ pick (digit x) 1 0) × (result ≤ 1) }
{
    if b'0' <= x && x <= b'9' { 1 } else { 0 }
}

// Whether all octets are digits. They are counted, so that no branch stands between two of them.
fn all_digits(s: &[u8]) -> bool
    ensures { result ≡ all_digits s.now }
{
    let mut n: usize = 0;
    for &x in s {
        n += one_for_digit(x);
    }
    n == s.len()
}

// The octets of the date that stands first, told by the octets where T and Z may stand.
fn date_octets(s: &[u8]) -> OctetCount
    ensures { result.0 ≡ date_octets s.now }
{
    if s.len() <= 8 || s[8] != b'T' {
        return OctetCount(8);
    }
    if s.len() <= 15 || s[15] != b'Z' {
        return OctetCount(15);
    }
    OctetCount(16)
}

// Whether octets are a common date.
fn date_taken(s: &[u8]) -> bool
    ensures { result ≡ date_taken s.now }
{
    let n = date_octets(s).0;
    s.len() == n && all_digits(&s[0..8]) && (n == 8 || all_digits(&s[9..15]))
}

// ---- What is said ahead of a bitmap.

// Whether nothing is said.
fn silent(mcc: &[u8], mnc: &[u8], date: &[u8]) -> bool
    ensures { result ≡ silentOf (said mcc.now mnc.now date.now) }
{
    mcc.is_empty() && mnc.is_empty() && date.is_empty()
}

// Whether octets are so many digits.
fn digits_taken(n: OctetCount, s: &[u8]) -> bool
    ensures { result ≡ digits_taken n.0 s.now }
{
    s.len() == n.0 && all_digits(s)
}

// Whether a logo may say this.
fn logo_taken(mcc: &[u8], mnc: &[u8], date: &[u8]) -> bool
    ensures { result ≡ taken_of Logo (said mcc.now mnc.now date.now) }
{
    digits_taken(OctetCount(3), mcc) && digits_taken(OctetCount(2), mnc) && date_taken(date)
}

// Whether a bitmap of a kind may say this ahead.
pub fn taken(kind: Kind, mcc: &[u8], mnc: &[u8], date: &[u8]) -> bool
    ensures { result ≡ taken_of kind (said mcc.now mnc.now date.now) }
{
    match kind {
        Kind::Plain | Kind::Icon => silent(mcc, mnc, date),
        Kind::Logo => logo_taken(mcc, mnc, date),
    }
}

// ---- In a message.

// Where the bitmap of a logo begins: behind the line feed.
fn logo_start(msg: &[u8]) -> OctetCount
    ensures { result.0 ≡ start_of Logo msg.now }
{
    if msg.len() < 6 {
        return OctetCount(15);
    }
    OctetCount(date_octets(&msg[6..]).0 + 7)
}

// Where the bitmap of a message begins.
pub fn start(kind: Kind, msg: &[u8]) -> OctetCount
    ensures { (result.0 ≡ start_of kind msg.now) × (result.0 ≤ 23) }
{
    match kind {
        Kind::Plain => OctetCount(0),
        Kind::Icon => OctetCount(1),
        Kind::Logo => logo_start(msg),
    }
}

// Whether every octet ahead of a logo's bitmap is one that a logo has there. Codes and day are thirteen digits in a row, and
// where the bitmap begins tells that T and Z stand in their places.
fn logo_stands(msg: &[u8], start: OctetCount) -> bool
    requires { (start.0 ≡ start_of Logo msg.now) × (start.0 ≤ length msg.now) }
    ensures { result ≡ standsOf Logo msg.now }
{
    let end = start.0 - 1;
    msg[0] == b'0'
        && msg[end] == b'\n'
        && all_digits(&msg[1..14])
        && (start.0 == 15 || all_digits(&msg[15..21]))
}

// Whether every octet ahead of the bitmap is one that the kind has there.
pub fn stands(kind: Kind, msg: &[u8], start: OctetCount) -> bool
    requires { (start.0 ≡ start_of kind msg.now) × (start.0 ≤ length msg.now) }
    ensures { result ≡ standsOf kind msg.now }
{
    match kind {
        Kind::Plain => true,
        Kind::Icon => msg[0] == b'0',
        Kind::Logo => logo_stands(msg, start),
    }
}

// ---- Written.

// The octets that stand ahead of a bitmap that says this.
pub fn octets(kind: Kind, mcc: &[u8], mnc: &[u8], date: &[u8]) -> OctetCount
    requires { taken_of kind (said mcc.now mnc.now date.now) ≡ true }
    ensures { (result.0 ≡ length (ahead_octets kind (said mcc.now mnc.now date.now))) × (result.0 ≤ 23) }
{
    match kind {
        Kind::Plain => OctetCount(0),
        Kind::Icon => OctetCount(1),
        Kind::Logo => OctetCount(mcc.len() + mnc.len() + date.len() + 2),
    }
}

// Copies octets into a buffer, behind so many.
fn put_at(src: &[u8], out: &mut [u8], at: OctetCount)
    requires { at.0 + length src.now ≤ length out.old }
    ensures { out.new ≡ take at.0 out.old ++ src.now ++ drop (at.0 + length src.now) out.old }
{
    let i = at.0;
    copy::copy(src, &mut out[i..]);
}

// Writes a logo's version and its two codes to the front of a buffer.
fn put_codes(mcc: &[u8], mnc: &[u8], out: &mut [u8])
    requires { length mcc.now + length mnc.now + 1 ≤ length out.old }
    ensures { out.new ≡ over (0x30 ∷ mcc.now ++ mnc.now) out.old }
{
    out[0] = b'0';
    put_at(mcc, out, OctetCount(1));
    put_at(mnc, out, OctetCount(mcc.len() + 1));
}

// Writes what stands ahead of a logo's bitmap to the front of a buffer.
fn put_logo(mcc: &[u8], mnc: &[u8], date: &[u8], out: &mut [u8])
    requires { length mcc.now + length mnc.now + length date.now + 2 ≤ length out.old }
    ensures { out.new ≡ over (ahead_octets Logo (said mcc.now mnc.now date.now)) out.old }
{
    put_codes(mcc, mnc, out);
    let day = mcc.len() + mnc.len() + 1;
    put_at(date, out, OctetCount(day));
    let end = day + date.len();
    out[end] = b'\n';
}

// Writes what stands ahead of a bitmap to the front of a buffer.
pub fn put(kind: Kind, mcc: &[u8], mnc: &[u8], date: &[u8], out: &mut [u8])
    requires { length (ahead_octets kind (said mcc.now mnc.now date.now)) ≤ length out.old }
    ensures { out.new ≡ over (ahead_octets kind (said mcc.now mnc.now date.now)) out.old }
{
    match kind {
        Kind::Plain => {}
        Kind::Icon => out[0] = b'0',
        Kind::Logo => put_logo(mcc, mnc, date, out),
    }
}
