// 01, "The block": "Bit fields, most significant bit first, no gaps." A field is read or stored anywhere in a run of bytes.
// A run of bytes is seen as its bits (`unpack`). A field is read out of eight bytes at once, and stored byte by byte, in at most nine turns.

#![tactic(auto)]

ghost use Rattle.std.specs.Prelude.{◌≡◌, min, ◌+◌, ◌-◌, ◌*◌, ◌^◌, ◌≤◌, ◌<◌, length, take, drop};
ghost use Rattle.std.proofs.lemmas.List.Edits.{sets};
ghost use Rattle.rules.specs.Bits.{field, value, unpack};

// A byte as a word.
fn wide(byte: u8) -> u64
    ensures { (result ≡ byte) × (result < 2 ^ 8) }
{
    byte as u64
}

fn power(k: usize) -> u64
    requires { k < 64 }
    ensures { result ≡ 2 ^ k }
{
    1u64 << k
}

// The first `count` of a byte's last `room` bits.
fn part(byte: u8, room: usize, count: usize) -> u64
    requires { (count ≤ room) × (room ≤ 8) }
    ensures { result ≡ value (take count (drop (8 - room) (field 8 byte))) }
{
    (wide(byte) >> (room - count)) % power(count)
}

// The byte with the last `count` bits of v in their place; its other bits are kept.
fn with_part(byte: u8, room: usize, count: usize, v: u64) -> u8
    requires { (count ≤ room) × (room ≤ 8) }
    ensures { field 8 result ≡ sets (field 8 byte) (8 - room) (field count v) }
{
    let x = wide(byte);
    let above = power(room);
    let below = power(room - count);
    let own = v % power(count);
    (x / above * above + own * below + x % below) as u8
}

// The four bytes from number i on, as one number.
fn four(src: &[u8], i: usize) -> u64
    requires { i + 4 ≤ length src.now }
    ensures { result ≡ value (take 32 (drop (8 * i) (unpack src.now))) }
{
    let first = wide(src[i]);
    let second = wide(src[i + 1]);
    let third = wide(src[i + 2]);
    let last = wide(src[i + 3]);
    ((first * 256 + second) * 256 + third) * 256 + last
}

// The eight bytes from number i on, as one number: the compiler loads them at once.
fn eight(src: &[u8], i: usize) -> u64
    requires { i + 8 ≤ length src.now }
    ensures { result ≡ value (take 64 (drop (8 * i) (unpack src.now))) }
{
    four(src, i) * 4294967296 + four(src, i + 4)
}

// The field of k bits at the bit `from` of a byte, out of eight bytes: those from that byte on, or the last eight there are.
fn within_eight(src: &[u8], byte: usize, from: usize, k: usize) -> u64
    requires { (0 < k) × (k ≤ 56) × (from < 8) × (8 * byte + from + k ≤ 8 * length src.now) × (8 ≤ length src.now) }
    ensures { result ≡ value (take k (drop (8 * byte + from) (unpack src.now))) }
{
    let first = byte.min(src.len() - 8);
    (eight(src, first) << (8 * (byte - first) + from)) >> (64 - k)
}

// A field byte by byte, for runs of less than eight bytes.
fn by_bytes(src: &[u8], at: usize, k: usize) -> u64
    requires { (k ≤ 64) × (at + k ≤ 8 * length src.now) }
    ensures { result ≡ value (take k (drop at (unpack src.now))) }
{
    let mut sofar: u64 = 0;
    let mut left = k;
    let mut byte = at / 8;
    let mut room = 8 - at % 8;
    // kept: no index loop: each turn passes as many bits as its byte has room for, and the bits, not the bytes, are counted
    while 0 < left {
        let count = room.min(left);
        sofar = (sofar << count) + part(src[byte], room, count);
        left -= count;
        byte += 1;
        room = 8;
    }
    sofar
}

// The field of k bits at the bit `at`.
pub fn get(src: &[u8], at: usize, k: usize) -> u64
    requires { (k ≤ 64) × (at + k ≤ 8 * length src.now) }
    ensures { result ≡ value (take k (drop at (unpack src.now))) }
{
    if src.len() < 8 {
        return by_bytes(src, at, k);
    }
    if k == 0 {
        return 0;
    }
    let byte = at / 8;
    let from = at % 8;
    if k <= 56 {
        return within_eight(src, byte, from, k);
    }
    (within_eight(src, byte, from, 32) << (k - 32)) + within_eight(src, byte + 4, from, k - 32)
}

// Stores the last k bits of v at the bit `at`; every other bit keeps its value.
pub fn put(dst: &mut [u8], at: usize, k: usize, v: u64)
    requires { (k ≤ 64) × (at + k ≤ 8 * length dst.old) }
    ensures { unpack dst.new ≡ sets (unpack dst.old) at (field k v) }
{
    let mut left = k;
    let mut byte = at / 8;
    let mut room = 8 - at % 8;
    // kept: no index loop: each turn passes as many bits as its byte has room for, and the bits, not the bytes, are counted
    while 0 < left {
        let count = room.min(left);
        left -= count;
        dst[byte] = with_part(dst[byte], room, count, v >> left);
        byte += 1;
        room = 8;
    }
}
