//! The words of a block's schedule (FIPS 180-4, 6.2.2), four at a time in the lanes of a vector.

ghost use Rattle.std.specs.Prelude.{◌≡◌, ℕ, ◌+◌, ◌-◌, ◌*◌, ◌/◌, ◌%◌, ◌^◌, ◌<◌, ◌≤◌, List, [], ◌∷◌, length, slice_index, bit_xor};
ghost use Rattle.std.specs.Int.{w32, rotate_right};
ghost use Rattle.sha2.specs.Sha256.{add32, small_sigma0, small_sigma1, schedule, round_constants};
ghost use Rattle.fast_sha256.specs.Words.{AreSums, AreWords};
ghost use Rattle.std.specs.Simd.Lanes.{chunk, number_l};

use std::simd::{u8x16, u32x4, u64x2};

/// The first 32 bits of the fractional parts of the cube roots of the first 64 primes (4.2.2).
const ROUND_CONSTANTS: [u32; 64] = [
    0x428a_2f98,
    0x7137_4491,
    0xb5c0_fbcf,
    0xe9b5_dba5,
    0x3956_c25b,
    0x59f1_11f1,
    0x923f_82a4,
    0xab1c_5ed5,
    0xd807_aa98,
    0x1283_5b01,
    0x2431_85be,
    0x550c_7dc3,
    0x72be_5d74,
    0x80de_b1fe,
    0x9bdc_06a7,
    0xc19b_f174,
    0xe49b_69c1,
    0xefbe_4786,
    0x0fc1_9dc6,
    0x240c_a1cc,
    0x2de9_2c6f,
    0x4a74_84aa,
    0x5cb0_a9dc,
    0x76f9_88da,
    0x983e_5152,
    0xa831_c66d,
    0xb003_27c8,
    0xbf59_7fc7,
    0xc6e0_0bf3,
    0xd5a7_9147,
    0x06ca_6351,
    0x1429_2967,
    0x27b7_0a85,
    0x2e1b_2138,
    0x4d2c_6dfc,
    0x5338_0d13,
    0x650a_7354,
    0x766a_0abb,
    0x81c2_c92e,
    0x9272_2c85,
    0xa2bf_e8a1,
    0xa81a_664b,
    0xc24b_8b70,
    0xc76c_51a3,
    0xd192_e819,
    0xd699_0624,
    0xf40e_3585,
    0x106a_a070,
    0x19a4_c116,
    0x1e37_6c08,
    0x2748_774c,
    0x34b0_bcb5,
    0x391c_0cb3,
    0x4ed8_aa4a,
    0x5b9c_ca4f,
    0x682e_6ff3,
    0x748f_82ee,
    0x78a5_636f,
    0x84c8_7814,
    0x8cc7_0208,
    0x90be_fffa,
    0xa450_6ceb,
    0xbef9_a3f7,
    0xc671_78f2,
];

#[inline(always)]
fn add_lanes(a: u32x4, b: u32x4) -> u32x4
    ensures len { length result ≡ 4 }
    ensures lanes { (j : ℕ) → j < 4 → slice_index result j ≡ add32 (slice_index a j) (slice_index b j) }
{
    a + b
}

#[inline(always)]
fn xor_lanes(a: u32x4, b: u32x4) -> u32x4
    ensures { (j : ℕ) → j < 4 → slice_index result j ≡ bit_xor (slice_index a j) (slice_index b j) }
{
    a ^ b
}

#[inline(always)]
fn shift_lanes(a: u32x4, by: u32) -> u32x4
    requires { by < 32 }
    ensures { (j : ℕ) → j < 4 → slice_index result j ≡ slice_index a j / 2 ^ by }
{
    a >> u32x4::splat(by)
}

#[inline(always)]
fn rotate_lanes(a: u32x4, by: u32) -> u32x4
    requires { (0 < by) × (by < 32) }
    ensures { (j : ℕ) → j < 4 → slice_index result j ≡ rotate_right w32 (slice_index a j) by }
{
    (a >> u32x4::splat(by)) | (a << u32x4::splat(32 - by))
}

#[inline(always)]
fn sigma0_of_each(a: u32x4) -> u32x4
    ensures { (j : ℕ) → j < 4 → slice_index result j ≡ small_sigma0 (slice_index a j) }
{
    xor_lanes(
        xor_lanes(rotate_lanes(a, 7), rotate_lanes(a, 18)),
        shift_lanes(a, 3),
    )
}

/// The last three words of a vector, and the first one of the next.
#[inline(always)]
fn from_second(a: u32x4, b: u32x4) -> u32x4
    ensures { (slice_index result 0 ≡ slice_index a 1) × (slice_index result 1 ≡ slice_index a 2)
        × (slice_index result 2 ≡ slice_index a 3) × (slice_index result 3 ≡ slice_index b 0) }
{
    a.shuffle(b, [1, 2, 3, 4])
}

/// Of each pair of words the one of 64 bits that they are in memory.
#[inline(always)]
fn as_pairs(a: u32x4) -> u64x2
    ensures { (slice_index result 0 ≡ slice_index a 0 + 2 ^ 32 * slice_index a 1) × (slice_index result 1 ≡ slice_index a 2 + 2 ^ 32 * slice_index a 3) }
{
    u64x2::from_le_bytes(a.to_le_bytes())
}

/// The low 32 bits of each word, in the first lane and the third.
#[inline(always)]
fn low_halves(a: u64x2) -> u32x4
    ensures { (slice_index result 0 ≡ slice_index a 0 % 2 ^ 32) × (slice_index result 2 ≡ slice_index a 1 % 2 ^ 32) }
{
    u32x4::from_le_bytes(a.to_le_bytes())
}

#[inline(always)]
fn shifted_twice(a: u64x2) -> u64x2
    ensures { (slice_index result 0 ≡ bit_xor (slice_index a 0 / 2 ^ 17) (slice_index a 0 / 2 ^ 19))
        × (slice_index result 1 ≡ bit_xor (slice_index a 1 / 2 ^ 17) (slice_index a 1 / 2 ^ 19)) }
{
    (a >> 17) ^ (a >> 19)
}

/// Of two words, each of which stands in two lanes, in the first lane and the third.
//
// A word beside itself is shifted as one of 64 bits, and its low half then is the word turned. There is no instruction that turns a lane.
#[inline(always)]
fn sigma1_of_twins(a: u32x4) -> u32x4
    requires { (slice_index a 0 ≡ slice_index a 1) × (slice_index a 2 ≡ slice_index a 3) }
    ensures { (slice_index result 0 ≡ small_sigma1 (slice_index a 0)) × (slice_index result 2 ≡ small_sigma1 (slice_index a 2)) }
{
    xor_lanes(low_halves(shifted_twice(as_pairs(a))), shift_lanes(a, 10))
}

/// Of the last two words, in the first two lanes. The others are 0.
#[inline(always)]
fn sigma1_of_upper(a: u32x4) -> u32x4
    ensures { (slice_index result 0 ≡ small_sigma1 (slice_index a 2)) × (slice_index result 1 ≡ small_sigma1 (slice_index a 3))
        × (slice_index result 2 ≡ 0) × (slice_index result 3 ≡ 0) }
{
    sigma1_of_twins(a.swizzle([2, 2, 3, 3])).shuffle(u32x4::splat(0), [0, 2, 4, 5])
}

/// Of the first two words, in the last two lanes. The others are 0.
#[inline(always)]
fn sigma1_of_lower(a: u32x4) -> u32x4
    ensures { (slice_index result 0 ≡ 0) × (slice_index result 1 ≡ 0)
        × (slice_index result 2 ≡ small_sigma1 (slice_index a 0)) × (slice_index result 3 ≡ small_sigma1 (slice_index a 1)) }
{
    sigma1_of_twins(a.swizzle([0, 0, 1, 1])).shuffle(u32x4::splat(0), [4, 5, 0, 2])
}

/// The next four words, after these sixteen. The last two of them need the first two.
#[inline(always)]
pub(crate) fn next_four(a: u32x4, b: u32x4, c: u32x4, d: u32x4) -> u32x4
    ensures { (block : List ℕ) (t : ℕ) → t + 20 ≤ 64
        → AreWords a t (schedule block 48) → AreWords b (t + 4) (schedule block 48)
        → AreWords c (t + 8) (schedule block 48) → AreWords d (t + 12) (schedule block 48)
        → AreWords result (t + 16) (schedule block 48) }
{
    let sums = add_lanes(
        add_lanes(a, sigma0_of_each(from_second(a, b))),
        from_second(c, d),
    );
    let half = add_lanes(sums, sigma1_of_upper(d));
    add_lanes(half, sigma1_of_lower(half))
}

/// Each four bytes in the other order.
#[inline(always)]
fn each_reversed(bytes: u8x16) -> u8x16
    ensures { (j : ℕ) → j < 4 → chunk (4 * j) 4 result
        ≡ slice_index bytes (4 * j + 3) ∷ slice_index bytes (4 * j + 2) ∷ slice_index bytes (4 * j + 1) ∷ slice_index bytes (4 * j) ∷ [] }
{
    bytes.swizzle([3, 2, 1, 0, 7, 6, 5, 4, 11, 10, 9, 8, 15, 14, 13, 12])
}

#[inline(always)]
fn as_words(bytes: u8x16) -> u32x4
    ensures { (j : ℕ) → j < 4 → slice_index result j ≡ number_l 256 (chunk (4 * j) 4 bytes) }
{
    u32x4::from_le_bytes(bytes)
}

/// Four of the block's own sixteen words, from this one on.
#[inline(always)]
pub(crate) fn block_words(block: &[u8], t: usize) -> u32x4
    requires len { length block.now ≡ 64 }
    requires t { t + 4 ≤ 16 }
    ensures { AreWords result t (schedule block.now 48) }
{
    as_words(each_reversed(u8x16::from_slice(&block[4 * t..])))
}

#[inline(always)]
fn constants_from(t: usize) -> u32x4
    requires { t + 4 ≤ 64 }
    ensures { AreWords result t round_constants }
{
    let all: &[u32] = &ROUND_CONSTANTS;
    u32x4::from_slice(&all[t..])
}

/// Keeps the sums of four words with their constants, from this one on.
#[inline(always)]
pub(crate) fn store_sums(sums: &mut [u32], t: usize, lanes: u32x4)
    requires len { length sums.old ≡ 64 }
    requires t { t + 4 ≤ 64 }
    ensures len { length sums.new ≡ 64 }
    ensures sums { (words : List ℕ) → AreSums sums.old t words → AreWords lanes t words → AreSums sums.new (t + 4) words }
{
    add_lanes(constants_from(t), lanes).copy_to_slice(&mut sums[t..]);
}
