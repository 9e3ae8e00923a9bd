// The digest by which a text is told from others. It is fast, and no protection against someone who makes two texts of one digest.
ghost use Rattle.std.specs.Prelude.{◌≡◌, ◌+◌, ◌≤◌, length};
ghost use Rattle.rdlpp_c.specs.Digest.{digest_of, digest_of_blocks, mixed, word_at};

// An odd number, so that no two states are mixed into one.
const FACTOR: u64 = 0x9fb2_1c65_1e98_df25;

// A number mixed into another one.
fn mixed(state: u64, number: u64) -> u64
    ensures { result ≡ mixed state number }
{
    let product = (state ^ number).wrapping_mul(FACTOR);
    product ^ (product >> 29)
}

// The eight bytes from a place on, as a number.
fn word_at(text: &[u8], at: usize) -> u64
    requires { at + 8 ≤ length text.now }
    ensures { result ≡ word_at text.now at }
{
    u64::from_be_bytes([
        text[at],
        text[at + 1],
        text[at + 2],
        text[at + 3],
        text[at + 4],
        text[at + 5],
        text[at + 6],
        text[at + 7],
    ])
}

// The digest of a text's whole blocks of four words. Each word of a block is mixed into a state of its own, so that the four
// don't wait for each other.
#[tactic(auto, unfolding(crate::specs::Digest::mixed_all))]
fn digest_of_blocks(text: &[u8]) -> u64
    ensures { result ≡ digest_of_blocks text.now }
{
    let mut first = 1;
    let mut second = 1;
    let mut third = 1;
    let mut fourth = 1;
    for place in 0..text.len() / 32 {
        let at = 32 * place;
        first = mixed(first, word_at(text, at));
        second = mixed(second, word_at(text, at + 8));
        third = mixed(third, word_at(text, at + 16));
        fourth = mixed(fourth, word_at(text, at + 24));
    }
    mixed(mixed(mixed(first, second), third), fourth)
}

// The digest of a text.
#[tactic(auto, unfolding(crate::specs::Digest::mixed_all))]
pub(crate) fn digest_of(text: &[u8]) -> u64
    ensures { result ≡ digest_of text.now }
{
    let mut state = digest_of_blocks(text);
    let from = 32 * (text.len() / 32);
    for place in 0..text.len() % 32 {
        state = mixed(state, u64::from(text[from + place]));
    }
    state
}
