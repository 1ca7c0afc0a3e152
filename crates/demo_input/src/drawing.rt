//! Drawing of numbers.

ghost use Rattle.std.specs.Prelude.{◌≡◌, ◌≤◌, ◌<◌, ◌-◌, min, nat_lt, if◌then◌else◌};
ghost use Rattle.demo_input.specs.Drawing.{next, distance, drawn};

/// The number behind a number.
fn next(number: u64) -> u64
    ensures { result ≡ next number }
{
    number
        .wrapping_mul(6_364_136_223_846_793_005)
        .wrapping_add(1_442_695_040_888_963_407)
}

/// The number that is reached for a commit, by that of the commit before it. The first two draw none.
pub fn number_for(commit: u32, number: u64) -> u64
    ensures { result ≡ if nat_lt commit 2 then number else next number }
{
    if commit < 2 { number } else { next(number) }
}

/// What is drawn where this number is reached.
pub fn drawn(number: u64) -> u64
    ensures { result ≡ drawn number }
{
    number >> 33
}

/// How far before the commit ahead of this one another parent may lie.
fn most_distance(commit: u32) -> u32
    requires { 2 ≤ commit }
    ensures most { result ≡ min commit 65 - 1 }
    ensures bounds { (1 ≤ result) × (result < commit) }
{
    if commit < 65 { commit - 1 } else { 64 }
}

/// How far before the commit ahead of this one another parent lies.
pub fn distance(commit: u32, drawn: u64) -> u32
    requires { 2 ≤ commit }
    ensures distance { result ≡ distance commit drawn }
    ensures bounds { (1 ≤ result) × (result < commit) }
{
    1 + (drawn / 16 % u64::from(most_distance(commit))) as u32
}
