// Stores into a lent slice, for every place: what lies past the end is left out, and nothing else changes.
#![tactic(auto)]

ghost use Rattle.std.specs.Prelude.{◌≡◌, set};
ghost use Rattle.std.proofs.lemmas.List.Edits.{sets};

// A value of whatever type at place i.
pub fn put<T: Copy>(t: &mut [T], i: usize, v: T)
    ensures { t.new ≡ set t.old i v }
{
    if i < t.len() {
        t[i] = v;
    }
}

// The next three stay beside the generic one: the must-fail edits byte_seven_bits, number_low_byte and word_low_half each change what one of them stores by its
// width, which generic code can't.
pub fn put8(t: &mut [u8], i: usize, b: u8)
    ensures { t.new ≡ set t.old i b }
{
    put(t, i, b);
}

pub fn put16(t: &mut [u16], i: usize, v: u16)
    ensures { t.new ≡ set t.old i v }
{
    put(t, i, v);
}

pub fn put64(t: &mut [u64], i: usize, w: u64)
    ensures { t.new ≡ set t.old i w }
{
    put(t, i, w);
}

// The bytes of s from `at` on, as far as there is room.
pub fn put_all(t: &mut [u8], at: usize, s: &[u8])
    ensures { t.new ≡ sets t.old at s.now }
{
    let room = t.len().saturating_sub(at);
    for i in 0..s.len().min(room) {
        t[at + i] = s[i];
    }
}
