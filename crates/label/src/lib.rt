#![tactic(auto)]

ghost use Rattle.std.specs.Prelude.{◌≡◌, false, ◌+◌, ◌≤◌, length};
ghost use Rattle.tone.specs.Tone.{per_character};
ghost use Rattle.label.specs.Label.{character as characterAt, left_octets, odd as oddOf};
ghost use Rattle.label.specs.Promises.{SuppliedPromise, LabelPromise};

use bits::OctetCount;

// The buffer that supplied a label, and the label's octets.
#[derive(Clone, Copy)]
pub enum Supplier {
    Title(OctetCount),
    StandIn(OctetCount),
}

// Whether the octets are odd under UNICODE.
#[tactic(auto, unfolding(crate::specs::Label::odd))]
fn odd(title: &[u8], unicode: bool) -> bool
    ensures { result ≡ oddOf unicode title.now }
{
    unicode && title.len() % 2 == 1
}

// The character that starts at an octet.
fn character(title: &[u8], at: OctetCount, unicode: bool) -> u32
    requires { at.0 + per_character unicode ≤ length title.now }
    ensures { result ≡ characterAt (per_character unicode) title.now at.0 }
{
    let i = at.0;
    if unicode {
        title[i] as u32 * 256 + title[i + 1] as u32
    } else {
        title[i] as u32
    }
}

// The octets that are left of a title without its trailing spaces.
#[tactic(auto, using(crate::proofs::Trimming::trims))]
fn left(title: &[u8], unicode: bool) -> OctetCount
    requires { oddOf unicode title.now ≡ false }
    ensures { result.0 ≡ left_octets (per_character unicode) title.now }
{
    let w = tone_elements::character_octets(unicode).0;
    let mut end = title.len();
    while 0 < end && character(title, OctetCount(end - w), unicode) == 32 {
        end -= w;
    }
    OctetCount(end)
}

// Which buffer supplies the label, and how many octets of it.
#[tactic(auto, using(crate::proofs::Exits::supplies))]
pub fn supplied(title: &[u8], unicode: bool, stand_in: &[u8]) -> Supplier
    ensures { SuppliedPromise title.now unicode stand_in.now result }
{
    if !odd(title, unicode) {
        let n = left(title, unicode);
        if n.0 != 0 {
            return Supplier::Title(n);
        }
    }
    Supplier::StandIn(OctetCount(stand_in.len()))
}

// The label: the title without its trailing spaces, or the stand-in name.
#[tactic(auto, using(crate::proofs::Exits::labels))]
pub fn label<'a, 'b: 'a>(title: &'a [u8], unicode: bool, stand_in: &'b [u8]) -> &'a [u8]
    ensures { LabelPromise title.entry unicode stand_in.entry result }
{
    match supplied(title, unicode, stand_in) {
        Supplier::StandIn(_) => stand_in,
        Supplier::Title(octets) => &title[..octets.0],
    }
}
