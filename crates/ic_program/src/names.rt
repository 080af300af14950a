//! How the beginning of a text is compared with the name of a call.
//!
//! ```text
//! after_name(b"push_back 0 3\n", b"push_back ") // Some(`0 3\n`), by two comparisons of eight bytes
//! ```

ghost use Rattle.std.specs.Prelude.{◌≡◌, ◌↔◌, ◌+◌, ◌≤◌, MatchOption, IsTrue, length, take, drop};
ghost use Rattle.std.specs.Int.{w32, w64, from_le_bytes};
ghost use Rattle.ic_program.specs.Text.{IsName, IsNoName, ReadsName};

/// Returns the text after the name, if the text begins with the name. The name has 4 to 24 bytes, of which the last is a space.
///
/// It compares eight bytes at once, or four for a short name, and may compare some bytes twice.
#[inline(always)]
pub(crate) fn after_name<'l, const N: usize>(text: &'l [u8], name: &[u8; N]) -> Option<&'l [u8]>
    requires { IsName N name.now }
    ensures { MatchOption result (IsNoName name.now text.now) (λ rest. ReadsName name.now text.now rest.now) }
{
    if begins_with(text, name) {
        return Some(&text[N..]);
    }
    None
}

// Returns whether the text begins with the name.
#[inline(always)]
fn begins_with<const N: usize>(text: &[u8], name: &[u8; N]) -> bool
    requires { (4 ≤ N) × (N ≤ 24) }
    ensures { IsTrue result ↔ (take N text.now ≡ name.now) }
{
    if text.len() < N {
        return false;
    }
    if N < 8 {
        return four_alike(text, name, 0) && four_alike(text, name, N - 4);
    }
    if N > 16 && !eight_alike(text, name, 8) {
        return false;
    }
    eight_alike(text, name, 0) && eight_alike(text, name, N - 8)
}

// Returns whether text and name have the same four bytes from the position `at` on.
#[inline(always)]
fn four_alike(text: &[u8], name: &[u8], at: usize) -> bool
    requires { (at + 4 ≤ length text.now) × (at + 4 ≤ length name.now) }
    ensures { IsTrue result ↔ (take 4 (drop at text.now) ≡ take 4 (drop at name.now)) }
{
    four(text, at) == four(name, at)
}

// Returns whether text and name have the same eight bytes from the position `at` on.
#[inline(always)]
fn eight_alike(text: &[u8], name: &[u8], at: usize) -> bool
    requires { (at + 8 ≤ length text.now) × (at + 8 ≤ length name.now) }
    ensures { IsTrue result ↔ (take 8 (drop at text.now) ≡ take 8 (drop at name.now)) }
{
    eight(text, at) == eight(name, at)
}

// Returns the four bytes of a text from the position `at` on, as a number.
#[inline(always)]
fn four(text: &[u8], at: usize) -> u32
    requires { at + 4 ≤ length text.now }
    ensures { result ≡ from_le_bytes w32 (take 4 (drop at text.now)) }
{
    match text[at..].first_chunk::<4>() {
        Some(bytes) => u32::from_le_bytes(*bytes),
        None => 0,
    }
}

// Returns the eight bytes of a text from the position `at` on, as a number.
#[inline(always)]
fn eight(text: &[u8], at: usize) -> u64
    requires { at + 8 ≤ length text.now }
    ensures { result ≡ from_le_bytes w64 (take 8 (drop at text.now)) }
{
    match text[at..].first_chunk::<8>() {
        Some(bytes) => u64::from_le_bytes(*bytes),
        None => 0,
    }
}
