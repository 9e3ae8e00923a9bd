// The index of a table: the places of its entries, sorted by the buckets in which their names stand, and then by name. A table has
// at most 65,536 macros, so that two bytes are enough for a place. In one list lie the places, with slack after those of each group
// of buckets, and after all of them the offsets of the macros. A definition moves those places of its own group that stand after
// its own, and a removal does too, so that its group has more slack then; where a group has none left, or all have much, each gets slack
// anew. Offsets that go near the front are given up there.
ghost use Rattle.std.specs.Prelude.{◌≡◌, ℕ, ◌+◌, ◌<◌, ◌≤◌, ◌^◌, ◌*◌, ◌/◌, ◌-◌, ◌++◌, All, IfOk, drop, length, map, remove, set, slice_index, take, true, vec_capacity, vec_len};
ghost use Rattle.std.specs.List.{copy_within, flat_map, list_all, remove_range};
ghost use Rattle.rdlpp_table.specs.Entries.{AreWithin};
ghost use Rattle.rdlpp_table.specs.FormalOffsets.{offsets_of};
ghost use Rattle.rdlpp_table.specs.Index.{bucket_of, closed, names_of, IsCounted, IsFound, IsIndexed};
ghost use Rattle.rdlpp_table.specs.IndexView.{empty_index, places_in, places_room, AreMoved, Enters, IsInBucket, IsSpaced, Leaves};
ghost use Rattle.rdlpp_table.specs.Store.{formals_read, live, macros_in, IsStored};
ghost use Rattle.rdlpp_define.specs.Plain.{is_plain_formal};
ghost use Rattle.rdlpp_define.specs.Macros.{formal_bytes};
ghost use Rattle.rdlpp_define.specs.Table.{place_named};

use crate::buckets::{BucketStarts, GROUP, bucket_of, move_down, move_up};
use crate::entry::{Entry, name_in};
use crate::given_up::{GivenUp, live};
use crate::lookup::{LookupKey, Steps};
use crate::offsets::push_offsets;
use crate::removal::{cover, cut};
use std::alloc::{AllocError, Global};
use std::cmp::Ordering;
use std::marker::Model;

// How many groups of buckets there are.
const GROUPS: usize = 32;

// The index of a table.
#[derive(Drop)]
pub(crate) struct Index {
    // The places in their order, with slack after those of each group; and where the formals of each macro begin among their bytes,
    // where these are long: two numbers for each formal.
    order: Vec<u16>,
    // How much slack lies before the places of each group, and before the offsets.
    slack_before: [u32; 33],
    // How many offsets at the front of the offsets are given up.
    given_up: usize,
    // How many places there are at most.
    most_places: usize,
    bucket_starts: BucketStarts,
}

impl Model for Index {
    ghost use Rattle.std.specs.Prelude.{drop, slice_index, vec_capacity, vec_len, ◌+◌, ◌-◌};
    ghost use Rattle.rdlpp_table.specs.IndexView.{places_in, places_room, IndexView, IsArranged};

    ghost Value = { IndexView };

    ghost view = { λ x. record {
      places = places_in x.order.items x.slack_before x.bucket_starts;
      bucket_starts = x.bucket_starts;
      formal_offsets = drop x.given_up (drop (slice_index x.bucket_starts 1024 + slice_index x.slack_before 32) x.order.items);
      room = record { places = x.most_places; formal_offsets = vec_capacity x.order - places_room x.most_places };
    } };

    ghost invariant = { λ x. IsArranged (vec_len x.order) (vec_capacity x.order) x.slack_before x.bucket_starts x.given_up x.most_places };
}

// The place in the index of the entry of a name, or the place where it would stand, by halving
// the bucket of the index in which the name stands.
pub(crate) fn seek(
    bytes: &[u8],
    entries: &[Entry],
    index: &Index,
    key: &LookupKey,
    bucket: usize,
    steps: &mut Steps,
) -> Result<usize, usize>
    requires within { AreWithin (length bytes.now) entries.now }
    requires indexed { IsIndexed (names_of (macros_in bytes.now entries.now)) index.now.places index.now.bucket_starts }
    requires few { length entries.now ≤ 65536 }
    requires bucket { bucket ≡ bucket_of key.now.name.now }
    requires small_bucket { bucket < 1024 }
    ensures found { IsFound (names_of (macros_in bytes.now entries.now)) index.now.places key.now.name.now result }
    ensures steps { IsCounted steps.old steps.new }
{
    let mut low = index.start(bucket);
    let mut high = index.start(bucket + 1);
    while low < high {
        let middle = low + (high - low) / 2;
        let name = name_in(bytes, &entries[index.place(middle, bucket)]);
        match key.compare(name, steps) {
            Ordering::Less => low = middle + 1,
            Ordering::Greater => high = middle,
            Ordering::Equal => return Ok(middle),
        }
    }
    Err(low)
}

// The same over the lists of a table, for a name whose comparisons nobody counts.
pub(crate) fn seek_named(
    bytes: &Vec<u8>,
    entries: &Vec<Entry>,
    front: &GivenUp,
    index: &Index,
    name: &[u8],
    bucket: usize,
) -> Result<usize, usize>
    requires stored { IsStored front.now.bytes front.now.formal_offsets bytes.now.items (live front.now.entries entries.now.items) (macros_in bytes.now.items (live front.now.entries entries.now.items)) }
    requires given_up { front.now.entries ≤ vec_len entries.now }
    requires indexed { IsIndexed (names_of (macros_in bytes.now.items (live front.now.entries entries.now.items))) index.now.places index.now.bucket_starts }
    requires few { length (live front.now.entries entries.now.items) ≤ 65536 }
    requires bucket { bucket ≡ bucket_of name.now }
    requires small_bucket { bucket < 1024 }
    ensures { IsFound (names_of (macros_in bytes.now.items (live front.now.entries entries.now.items))) index.now.places name.now result }
{
    seek(
        bytes,
        live(entries, front),
        index,
        &LookupKey::new(name),
        bucket,
        &mut Steps::new(),
    )
}

// The place of the entry of a name.
pub(crate) fn place_in(
    bytes: &[u8],
    entries: &[Entry],
    index: &Index,
    name: &[u8],
    steps: &mut Steps,
) -> Option<usize>
    requires within { AreWithin (length bytes.now) entries.now }
    requires indexed { IsIndexed (names_of (macros_in bytes.now entries.now)) index.now.places index.now.bucket_starts }
    requires few { length entries.now ≤ 65536 }
    ensures value { result ≡ place_named (macros_in bytes.now entries.now) name.now }
    ensures steps { IsCounted steps.old steps.new }
{
    let bucket = bucket_of(name);
    match seek(bytes, entries, index, &LookupKey::new(name), bucket, steps) {
        Ok(at) => Some(index.place(at, bucket)),
        Err(_) => None,
    }
}

// Where a place lies once another one was taken out.
#[tactic(auto, unfolding(crate::specs::Index::closed))]
fn closed(taken: u16, place: u16) -> u16
    ensures { result ≡ closed taken place }
{
    if taken < place { place - 1 } else { place }
}

// These places lie closer, once one was taken out.
fn close_up(places: &mut [u16], taken: u16)
    ensures { places.new ≡ map (closed taken) places.old }
{
    for place in places.iter_mut() {
        *place = closed(taken, *place);
    }
}

// All places of a list, which lie before an end, lie closer, once one was taken out.
fn close_list(order: &mut Vec<u16>, end: usize, taken: u16)
    requires { end ≤ vec_len order.old }
    ensures items { order.new.items ≡ map (closed taken) (take end order.old.items) ++ drop end order.old.items }
    ensures len { vec_len order.new ≡ vec_len order.old }
    ensures capacity { vec_capacity order.new ≡ vec_capacity order.old }
{
    close_up(&mut order[0..end], taken);
}

// Takes a place out of a list, and answers it: what stands after it, before an end, moves one to the front.
fn take_place(order: &mut Vec<u16>, at: usize, end: usize) -> u16
    requires at { at < end }
    requires end { end ≤ vec_len order.old }
    ensures value { result ≡ slice_index order.old.items at }
    ensures items { order.new.items ≡ copy_within order.old.items (at + 1) end at }
    ensures len { vec_len order.new ≡ vec_len order.old }
    ensures capacity { vec_capacity order.new ≡ vec_capacity order.old }
{
    let place = order[at];
    order.copy_within(at + 1..end, at);
    place
}

// Puts a place into a list: what stands from there on, before an end, moves one to the back, over the slack there.
fn put_place(order: &mut Vec<u16>, at: usize, end: usize, place: u16)
    requires at { at ≤ end }
    requires end { end < vec_len order.old }
    ensures items { order.new.items ≡ set (copy_within order.old.items at end (at + 1)) at place }
    ensures len { vec_len order.new ≡ vec_len order.old }
    ensures capacity { vec_capacity order.new ≡ vec_capacity order.old }
{
    order.copy_within(at..end, at + 1);
    order[at] = place;
}

// How much slack each group gets where there are so many places: in all an eighth as many items as places, and 128.
fn slack_for(places: usize) -> usize
    ensures { result ≡ places / 256 + 4 }
{
    places / 256 + 4
}

// How many items there is room for beside the offsets: for so many places, and for the most slack.
fn places_room(most_places: usize) -> usize
    requires { most_places < 2 ^ 31 }
    ensures { result ≡ places_room most_places }
{
    most_places + GROUPS * slack_for(most_places)
}

// How much slack lies before each group where all have as much.
fn even_slack(slack: usize) -> [u32; 33]
    requires { slack < 2 ^ 26 }
    ensures long { length result ≡ 33 }
    ensures even { (g : ℕ) → g ≤ 32 → slice_index result g ≡ slack * g }
{
    let mut before = [0; 33];
    for group in 0..33 {
        before[group] = (slack * group) as u32;
    }
    before
}

// Where the offsets begin in the list of an index.
#[inline(always)]
fn offsets_start(starts: &BucketStarts, before: &[u32; 33]) -> usize
    requires { length before.now ≡ 33 }
    ensures { result ≡ slice_index starts.now 1024 + slice_index before.now 32 }
{
    starts.group_start(GROUPS) + before[GROUPS] as usize
}

// Moves the places of each group to the front, so that no slack lies before them: the first group first, so that none is overwritten.
fn gather(order: &mut Vec<u16>, starts: &BucketStarts, before: &[u32; 33])
    requires spaced { IsSpaced before.now starts.now }
    requires inside { slice_index starts.now 1024 + slice_index before.now 32 ≤ vec_len order.old }
    ensures places { take (slice_index starts.now 1024) order.new.items ≡ places_in order.old.items before.now starts.now }
    ensures following { drop (slice_index starts.now 1024) order.new.items ≡ drop (slice_index starts.now 1024) order.old.items }
    ensures len { vec_len order.new ≡ vec_len order.old }
    ensures capacity { vec_capacity order.new ≡ vec_capacity order.old }
{
    for group in 0..GROUPS {
        let slack = before[group] as usize;
        if slack > 0 {
            let start = starts.group_start(group);
            let end = starts.group_start(group + 1);
            order.copy_within(start + slack..end + slack, start);
        }
    }
}

// Moves what begins so far after a place of a list, so that it begins as far after it as another number says.
fn move_rest(order: &mut Vec<u16>, at: usize, from: usize, to: usize)
    requires inside { at + from ≤ vec_len order.old }
    requires room { vec_len order.old + to ≤ vec_capacity order.old + from }
    ensures front { take at order.new.items ≡ take at order.old.items }
    ensures rest { drop (at + to) order.new.items ≡ drop (at + from) order.old.items }
    ensures len { vec_len order.new + from ≡ vec_len order.old + to }
    ensures capacity { vec_capacity order.new ≡ vec_capacity order.old }
{
    let len = order.len();
    let more = to.saturating_sub(from);
    for _ in 0..more {
        order.push_reserved(0);
    }
    order.copy_within(at + from..len, at + to);
    order.truncate(len - from + to);
}

// Moves the places of each group, before which no slack lies, to the back, to where slack lies before them: the last group first, so
// that none is overwritten.
fn move_groups(order: &mut Vec<u16>, starts: &BucketStarts, to: &[u32; 33])
    requires to { IsSpaced to.now starts.now }
    requires len { slice_index starts.now 1024 + slice_index to.now 32 ≤ vec_len order.old }
    ensures moved { AreMoved to.now starts.now 0 order.old.items order.new.items }
    ensures len { vec_len order.new ≡ vec_len order.old }
    ensures capacity { vec_capacity order.new ≡ vec_capacity order.old }
{
    let mut group = GROUPS;
    while group > 0 {
        let end = starts.group_start(group);
        group -= 1;
        let start = starts.group_start(group);
        order.copy_within(start..end, start + to[group] as usize);
    }
}

// Gives each group so much slack.
fn spread(order: &mut Vec<u16>, starts: &BucketStarts, before: &mut [u32; 33], slack: usize)
    requires spaced { IsSpaced before.old starts.now }
    requires small { slack < 2 ^ 26 }
    requires inside { slice_index starts.now 1024 + slice_index before.old 32 ≤ vec_len order.old }
    requires room { vec_len order.old + 32 * slack ≤ vec_capacity order.old + slice_index before.old 32 }
    ensures spaced { IsSpaced before.new starts.now }
    ensures even { (g : ℕ) → g ≤ 32 → slice_index before.new g ≡ slack * g }
    ensures places { places_in order.new.items before.new starts.now ≡ places_in order.old.items before.old starts.now }
    ensures offsets { drop (slice_index starts.now 1024 + slice_index before.new 32) order.new.items ≡ drop (slice_index starts.now 1024 + slice_index before.old 32) order.old.items }
    ensures len { vec_len order.new + slice_index before.old 32 ≡ vec_len order.old + slice_index before.new 32 }
    ensures capacity { vec_capacity order.new ≡ vec_capacity order.old }
{
    let even = even_slack(slack);
    gather(order, starts, before);
    move_rest(
        order,
        starts.group_start(GROUPS),
        before[GROUPS] as usize,
        even[GROUPS] as usize,
    );
    move_groups(order, starts, &even);
    *before = even;
}

// Sees to it that a group has slack, and that there isn't too much: where it has none left, or where more than twice as much lies before
// the offsets as all groups get, each group gets slack anew.
fn make_slack(order: &mut Vec<u16>, starts: &BucketStarts, before: &mut [u32; 33], group: usize)
    requires spaced { IsSpaced before.old starts.now }
    requires inside { slice_index starts.now 1024 + slice_index before.old 32 ≤ vec_len order.old }
    requires room { vec_len order.old + 32 * (slice_index starts.now 1024 / 256 + 4) ≤ vec_capacity order.old + slice_index before.old 32 }
    requires group { group < 32 }
    ensures spaced { IsSpaced before.new starts.now }
    ensures slack { slice_index before.new group < slice_index before.new (group + 1) }
    ensures most { (n : ℕ) → slice_index before.old 32 ≤ n → 32 * (slice_index starts.now 1024 / 256 + 4) ≤ n → slice_index before.new 32 ≤ n }
    ensures places { places_in order.new.items before.new starts.now ≡ places_in order.old.items before.old starts.now }
    ensures offsets { drop (slice_index starts.now 1024 + slice_index before.new 32) order.new.items ≡ drop (slice_index starts.now 1024 + slice_index before.old 32) order.old.items }
    ensures len { vec_len order.new + slice_index before.old 32 ≡ vec_len order.old + slice_index before.new 32 }
    ensures capacity { vec_capacity order.new ≡ vec_capacity order.old }
{
    let slack = slack_for(starts.group_start(GROUPS));
    if before[group] == before[group + 1] || before[GROUPS] as usize > 2 * (GROUPS * slack) {
        spread(order, starts, before, slack);
    }
}

// Sees to it that there is room for two offsets of each of so many formals, where the offsets begin at a place of a list and there is
// room for so many. Where there is none, or more are given up than aren't, those that aren't move to the front, and what was given up
// there becomes room at the back.
fn make_offset_room(
    order: &mut Vec<u16>,
    start: usize,
    given_up: &mut usize,
    room: usize,
    count: usize,
)
    requires inside { start + given_up.old ≤ vec_len order.old }
    requires within { vec_len order.old ≤ start + room }
    ensures inside { start + given_up.new ≤ vec_len order.new }
    ensures before { take start order.new.items ≡ take start order.old.items }
    ensures offsets { drop given_up.new (drop start order.new.items) ≡ drop given_up.old (drop start order.old.items) }
    ensures room { (n : ℕ) → n ≤ 2 * count → vec_len order.old + n ≤ start + given_up.old + room → vec_len order.new + n ≤ start + room }
    ensures capacity { vec_capacity order.new ≡ vec_capacity order.old }
{
    let len = order.len() - start;
    if (room - len) / 2 < count || *given_up > len - *given_up {
        cut(order, start, start + *given_up);
        *given_up = 0;
    }
}

impl Index {
    // An index with room for so many places and for so many offsets.
    #[inline(always)]
    pub(crate) fn new(
        alloc: Global,
        most_places: usize,
        most_offsets: usize,
    ) -> Result<Index, AllocError>
        requires { 2 * most_places + most_offsets < 2 ^ 32 }
        ensures { IfOk result (λ index. index ≡ empty_index (record { places = most_places; formal_offsets = most_offsets })) }
    {
        let order = Vec::with_capacity(alloc, places_room(most_places) + most_offsets)?;
        Ok(Index {
            order,
            slack_before: [0; 33],
            given_up: 0,
            most_places,
            bucket_starts: BucketStarts::new(),
        })
    }

    // Takes out all places and all offsets. The slack that each group gets first stays, or what a shorter list has room for.
    pub(crate) fn clear(&mut self)
        ensures { self.new ≡ empty_index self.old.room }
    {
        let slack = slack_for(0).min(self.order.len() / GROUPS);
        self.order.truncate(GROUPS * slack);
        self.slack_before = even_slack(slack);
        self.given_up = 0;
        self.bucket_starts.clear();
    }

    // The place that stands at a place of the index, in a bucket.
    #[inline(always)]
    pub(crate) fn place(&self, at: usize, bucket: usize) -> usize
        requires bucket { bucket < 1024 }
        requires at { IsInBucket self.now.bucket_starts bucket at }
        ensures { result ≡ slice_index self.now.places at }
    {
        self.order[at + self.slack_before[bucket / GROUP] as usize] as usize
    }

    // The offsets of the formals of all macros.
    #[inline(always)]
    pub(crate) fn formal_offsets(&self) -> &[u16]
        ensures { result.now ≡ self.now.formal_offsets }
    {
        &self.order[offsets_start(&self.bucket_starts, &self.slack_before) + self.given_up..]
    }

    // Where a bucket begins, or where the last one ends.
    #[inline(always)]
    fn start(&self, bucket: usize) -> usize
        requires { bucket ≤ 1024 }
        ensures { result ≡ slice_index self.now.bucket_starts bucket }
    {
        self.bucket_starts.start(bucket)
    }

    // Puts in a place, that of a name of a bucket.
    pub(crate) fn enter(&mut self, gap: usize, place: usize, bucket: usize)
        requires gap { (slice_index self.old.bucket_starts bucket ≤ gap) × (gap ≤ slice_index self.old.bucket_starts (bucket + 1)) }
        requires place { place < 2 ^ 16 }
        requires room { length self.old.places < self.old.room.places }
        requires bucket { bucket < 1024 }
        requires few { All (λ s. s ≤ 65536) self.old.bucket_starts }
        ensures { Enters gap place bucket self.old self.new }
    {
        let group = bucket / GROUP;
        make_slack(
            &mut self.order,
            &self.bucket_starts,
            &mut self.slack_before,
            group,
        );
        let before = self.slack_before[group] as usize;
        let end = self.bucket_starts.group_start(group + 1);
        put_place(&mut self.order, gap + before, end + before, place as u16);
        self.bucket_starts.begin_later(bucket);
        move_down(&mut self.slack_before[group + 1..]);
    }

    // Takes out the place at which a name of a bucket stands, and answers it.
    pub(crate) fn leave(&mut self, at: usize, bucket: usize) -> usize
        requires bucket { bucket < 1024 }
        requires at { IsInBucket self.old.bucket_starts bucket at }
        requires some { (p : ℕ) → bucket < p → p ≤ 1024 → slice_index self.old.bucket_starts bucket < slice_index self.old.bucket_starts p }
        ensures value { result ≡ slice_index self.old.places at }
        ensures leaves { Leaves at result bucket self.old self.new }
    {
        let group = bucket / GROUP;
        make_slack(
            &mut self.order,
            &self.bucket_starts,
            &mut self.slack_before,
            group,
        );
        let before = self.slack_before[group] as usize;
        let end = self.bucket_starts.group_start(group + 1);
        let place = take_place(&mut self.order, at + before, end + before);
        let offsets = offsets_start(&self.bucket_starts, &self.slack_before);
        close_list(&mut self.order, offsets, place);
        self.bucket_starts.begin_sooner(bucket);
        move_up(&mut self.slack_before[group + 1..]);
        place as usize
    }

    // Puts the offsets of a macro after the others: of so many formals, which lie in bytes, where they are long.
    pub(crate) fn push_offsets(&mut self, list: &[u8], count: usize)
        requires whole { flat_map formal_bytes (formals_read count list.now) ≡ list.now }
        requires plain { list_all is_plain_formal (formals_read count list.now) ≡ true }
        requires short { length list.now < 2 ^ 32 }
        requires room { length self.old.formal_offsets + length (offsets_of (formals_read count list.now)) ≤ self.old.room.formal_offsets }
        ensures { self.new ≡ record self.old { formal_offsets = self.old.formal_offsets ++ offsets_of (formals_read count list.now) } }
    {
        let start = offsets_start(&self.bucket_starts, &self.slack_before);
        let room = self.order.capacity() - places_room(self.most_places);
        make_offset_room(&mut self.order, start, &mut self.given_up, room, count);
        push_offsets(&mut self.order, list, count);
    }

    // Takes offsets out of the middle. Where those before them are less than a third of those after, they move to the back, and their
    // old room at the front is given up; else those after move to the front. Most macros have none, and then nothing moves.
    pub(crate) fn cut_offsets(&mut self, from: usize, to: usize)
        requires { (from ≤ to) × (to ≤ length self.old.formal_offsets) }
        ensures { self.new ≡ record self.old { formal_offsets = remove_range self.old.formal_offsets from to } }
    {
        if from == to {
            return;
        }
        let first = offsets_start(&self.bucket_starts, &self.slack_before) + self.given_up;
        let following = self.order.len() - (first + to);
        if from < following / 3 {
            cover(&mut self.order, first, first + from, to - from);
            self.given_up += to - from;
        } else {
            cut(&mut self.order, first + from, first + to);
        }
    }
}
