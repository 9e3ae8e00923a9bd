// The buckets of an index: names whose bytes are mixed to numbers that begin alike stand together.
ghost use Rattle.std.specs.Prelude.{◌≡◌, ℕ, ◌+◌, ◌*◌, ◌-◌, ◌<◌, ◌≤◌, ◌^◌, All, map, replicate, slice_index};
ghost use Rattle.rdlpp_table.specs.Buckets.{IsGrouped};
ghost use Rattle.rdlpp_table.specs.Index.{bucket_of, fold_bytes, mix, IsLater, IsSooner};

use crate::lookup::front_number;
use std::marker::Model;

// A number that is mixed with another one.
#[tactic(auto, unfolding(crate::specs::Index::mix))]
fn mix(number: u64, more: u64) -> u64
    ensures { result ≡ mix number more }
{
    number
        .wrapping_add(more)
        .wrapping_mul(0x9E37_79B9_7F4A_7C15)
}

// The number of a name's last bytes.
fn fold_bytes(bytes: &[u8]) -> u64
    ensures { result ≡ fold_bytes 0 bytes.now }
{
    let mut number: u64 = 0;
    for byte in bytes {
        number = number.wrapping_mul(256).wrapping_add(u64::from(*byte));
    }
    number
}

// In which bucket a name stands.
pub(crate) fn bucket_of(name: &[u8]) -> usize
    ensures value { result ≡ bucket_of name.now }
    ensures small { result < 1024 }
{
    let mut number: u64 = 0;
    let mut rest = name;
    while rest.len() >= 8 {
        number = mix(number, front_number(rest));
        rest = &rest[8..];
    }
    (mix(number, fold_bytes(rest)) / 18_014_398_509_481_984) as usize
}

// These numbers are each one more.
pub(crate) fn move_up(starts: &mut [u32])
    requires { All (λ s. s + 1 < 2 ^ 32) starts.old }
    ensures { starts.new ≡ map (λ s. s + 1) starts.old }
{
    for start in starts.iter_mut() {
        *start += 1;
    }
}

// These numbers are each one less.
pub(crate) fn move_down(starts: &mut [u32])
    requires { All (λ s. 0 < s) starts.old }
    ensures { starts.new ≡ map (λ s. s - 1) starts.old }
{
    for start in starts.iter_mut() {
        *start -= 1;
    }
}

// How many buckets a group has.
pub(crate) const GROUP: usize = 32;

// Lets each bucket begin where its group does. Those of a group that has no name do so already.
fn clear_groups(within: &mut [u32; 1_025], group_starts: &[u32; 33])
    requires { IsGrouped group_starts.now within.old }
    ensures { within.new ≡ replicate 1025 0 }
{
    for group in 0..32 {
        if group_starts[group] < group_starts[group + 1] {
            within[GROUP * group..GROUP * (group + 1)].fill(0);
        }
    }
}

// Where each of the 1,024 buckets of an index begins, and after them where the last one ends. Buckets stand in groups of 32, so
// that a name that comes or goes moves the starts of 31 buckets and of 32 groups at most.
#[derive(Drop)]
pub(crate) struct BucketStarts {
    // Where each group begins, and where the last one ends.
    group_starts: [u32; 33],
    // How far after the start of its group each bucket begins, and where the last one ends after itself.
    within: [u32; 1_025],
}

impl Model for BucketStarts {
    ghost use Rattle.std.specs.Prelude.{ℕ, List};
    ghost use Rattle.rdlpp_table.specs.Buckets.{starts_in, IsGrouped};

    ghost Value = { List ℕ };

    ghost view = { λ s. starts_in s.group_starts s.within };

    ghost invariant = { λ s. IsGrouped s.group_starts s.within };
}

impl BucketStarts {
    // The index has no name yet.
    #[inline(always)]
    pub(crate) fn new() -> BucketStarts
        ensures { result ≡ replicate 1025 0 }
    {
        BucketStarts {
            group_starts: [0; 33],
            within: [0; 1_025],
        }
    }

    // The index has no name any more.
    pub(crate) fn clear(&mut self)
        ensures { self.new ≡ replicate 1025 0 }
    {
        clear_groups(&mut self.within, &self.group_starts);
        self.group_starts = [0; 33];
    }

    // Where a bucket begins, or where the last one ends.
    #[inline(always)]
    pub(crate) fn start(&self, bucket: usize) -> usize
        requires { bucket ≤ 1024 }
        ensures { result ≡ slice_index self.now bucket }
    {
        self.group_starts[bucket / GROUP] as usize + self.within[bucket] as usize
    }

    // Where a group begins, or where the last one ends.
    #[inline(always)]
    pub(crate) fn group_start(&self, group: usize) -> usize
        requires { group ≤ 32 }
        ensures value { result ≡ slice_index self.now (32 * group) }
        ensures narrow { result < 2 ^ 32 }
    {
        self.group_starts[group] as usize
    }

    // The buckets after one begin a place later, once a name was put into it.
    pub(crate) fn begin_later(&mut self, bucket: usize)
        requires bucket { bucket < 1024 }
        requires few { All (λ s. s ≤ 65536) self.old }
        ensures { IsLater bucket self.old self.new }
    {
        let group = bucket / GROUP;
        move_up(&mut self.within[bucket + 1..GROUP * (group + 1)]);
        move_up(&mut self.group_starts[group + 1..]);
    }

    // The buckets after one begin a place sooner, once a name was taken out of it.
    pub(crate) fn begin_sooner(&mut self, bucket: usize)
        requires bucket { bucket < 1024 }
        requires some { (p : ℕ) → bucket < p → p ≤ 1024 → slice_index self.old bucket < slice_index self.old p }
        ensures { IsSooner bucket self.old self.new }
    {
        let group = bucket / GROUP;
        move_down(&mut self.within[bucket + 1..GROUP * (group + 1)]);
        move_down(&mut self.group_starts[group + 1..]);
    }
}
