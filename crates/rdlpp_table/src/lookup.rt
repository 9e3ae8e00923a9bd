// A name that is looked up, and the count of its comparisons.
ghost use Rattle.std.specs.Prelude.{◌≡◌, ◌+◌, ◌≤◌, ℕ, ◌∷◌, length, take};
ghost use Rattle.std.specs.Slice.Scan.{big_endian};
ghost use Rattle.rdlpp_table.specs.Index.{name_order};

use boxcar::tag::{Names, Tag};
use std::cmp::Ordering;
use std::marker::Model;

/// How many names were compared in searches. Contracts see it as a number without an upper end;
/// at run time it has no bytes and nothing is counted.
#[derive(Drop)]
pub struct Steps {
    tag: Tag,
}

impl Model for Steps {
    ghost Value = { ℕ };

    ghost view = { λ s. length s.tag.numbers };
}

// One number more than a tag has.
struct OneMore;

impl Names<Tag> for OneMore {
    ghost numbers = { λ t. 0 ∷ t.numbers };
}

impl Steps {
    /// No comparison yet. Takes no memory.
    pub fn new() -> Steps
        ensures { result ≡ 0 }
    {
        Steps { tag: Tag::empty() }
    }
}

// A name that is looked up. Only `compare` reads it, so that each comparison is a step.
#[derive(Clone, Copy, Drop)]
pub(crate) struct LookupKey<'a> {
    name: &'a [u8],
}

impl<'a> LookupKey<'a> {
    pub(crate) fn new(name: &'a [u8]) -> LookupKey<'a>
        ensures { result.name.now ≡ name.now }
    {
        LookupKey { name }
    }

    // How another name stands to the one that is looked up, byte by byte.
    pub(crate) fn compare(&self, other: &[u8], steps: &mut Steps) -> Ordering
        ensures order { result ≡ name_order other.now self.now.name.now }
        ensures step { steps.new ≡ steps.old + 1 }
    {
        let next = Tag::of::<Tag, OneMore>(&steps.tag);
        steps.tag = next;
        order_of(other, self.name)
    }
}

// The first eight bytes of a name as one number, the first byte the highest.
pub(crate) fn front_number(name: &[u8]) -> u64
    requires { 8 ≤ length name.now }
    ensures { result ≡ big_endian 0 (take 8 name.now) }
{
    u64::from_be_bytes([
        name[0], name[1], name[2], name[3], name[4], name[5], name[6], name[7],
    ])
}

// How a name stands to another one, byte by byte; eight bytes are compared as one number.
fn order_of(name: &[u8], other: &[u8]) -> Ordering
    ensures { result ≡ name_order name.now other.now }
{
    let mut left = name;
    let mut right = other;
    while left.len() >= 8 && right.len() >= 8 {
        let order = front_number(left).cmp(&front_number(right));
        if order.is_ne() {
            return order;
        }
        left = &left[8..];
        right = &right[8..];
    }
    left.cmp(right)
}
