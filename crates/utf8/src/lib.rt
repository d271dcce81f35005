// Well-formed UTF-8 by RFC 3629: ASCII is looked at first, anything else by the block.
#![tactic(auto)]

ghost use Rattle.std.specs.Prelude.{◌≡◌, [], ◌≤◌, ◌<◌, max, fold, Some};
ghost use Rattle.std.specs.List.{list_all};
ghost use Rattle.rules.specs.Utf8.{begins, after, after_all, UTF8-octets};
ghost use Rattle.utf8.specs.Wants.{block_size, wants, is_low};

// What the character at hand still wants: how many bytes, and the range of the next one. It is nothing between two characters.
#[derive(Clone, Copy)]
pub struct Wanted {
    pub more: u8,
    pub low: u8,
    pub high: u8,
}

// No character wants so many bytes: it stands for a byte that the grammar does not have there. A count among counts and no case of an
// enum: each test of `more` is one comparison, and a range stands beside each count alike.
const FAULT: u8 = 4;

// How many bytes are looked at together.
const BLOCK: usize = 16;

// So many bytes more, the next one in a range.
fn wanting(more: u8, low: u8, high: u8) -> Wanted
    ensures { result ≡ record { more = more; low = low; high = high } }
{
    Wanted { more, low, high }
}

// What a byte that begins a character of three wants.
fn lead_of_three(b: u8) -> Wanted
    requires { (0xE0 ≤ b) × (b ≤ 0xEF) }
    ensures { wants result ≡ begins b }
{
    if b == 0xE0 {
        return wanting(2, 0xA0, 0xBF);
    }
    if b == 0xED {
        return wanting(2, 0x80, 0x9F);
    }
    wanting(2, 0x80, 0xBF)
}

// What a byte of F0 or more wants: it begins a character of four, or none.
fn lead_of_four(b: u8) -> Wanted
    requires { 0xF0 ≤ b }
    ensures { wants result ≡ begins b }
{
    if b == 0xF0 {
        return wanting(3, 0x90, 0xBF);
    }
    if b < 0xF4 {
        return wanting(3, 0x80, 0xBF);
    }
    if b == 0xF4 {
        return wanting(3, 0x80, 0x8F);
    }
    wanting(FAULT, 0, 0)
}

// What a byte wants that stands where a character begins.
fn lead(b: u8) -> Wanted
    ensures { wants result ≡ begins b }
{
    if b < 0x80 {
        return wanting(0, 0, 0);
    }
    if b < 0xC2 {
        return wanting(FAULT, 0, 0);
    }
    if b < 0xE0 {
        return wanting(1, 0x80, 0xBF);
    }
    if b < 0xF0 {
        return lead_of_three(b);
    }
    lead_of_four(b)
}

impl Wanted {
    // What is wanted after one byte more.
    fn next(self, b: u8) -> Wanted
        ensures { wants result ≡ after (wants self) b }
    {
        if self.more == 0 {
            return lead(b);
        }
        if self.more >= FAULT {
            return self;
        }
        if b < self.low || b > self.high {
            return wanting(FAULT, 0, 0);
        }
        wanting(self.more - 1, 0x80, 0xBF)
    }
}

// What is wanted after these bytes, one by one.
fn after_bytes(bytes: &[u8], start: Wanted) -> Wanted
    ensures { wants result ≡ after_all (wants start) bytes.now }
{
    let mut w = start;
    for b in bytes {
        w = w.next(*b);
    }
    w
}

// The greatest of the bytes, 0 where there is none. Only one byte is kept, so that the loop becomes vector code.
fn greatest_byte(bytes: &[u8]) -> u8
    ensures { result ≡ fold max 0 bytes.now }
{
    let mut high: u8 = 0;
    for b in bytes {
        high = high.max(*b);
    }
    high
}

// What is wanted after a block: between two characters, bytes below 80 hex are looked at all at once.
fn after_block(block: &[u8], start: Wanted) -> Wanted
    ensures { wants result ≡ after_all (wants start) block.now }
{
    if start.more == 0 && greatest_byte(block) < 0x80 {
        return start;
    }
    after_bytes(block, start)
}

// How long a block is.
fn block_len() -> usize
    ensures { result ≡ block_size }
{
    BLOCK
}

// What is wanted after these bytes, block by block.
fn after_blocks(bytes: &[u8]) -> Wanted
    ensures { wants result ≡ after_all (Some []) bytes.now }
{
    let mut w = wanting(0, 0, 0);
    for block in bytes.chunks(block_len()) {
        w = after_block(block, w);
    }
    w
}

// Whether every byte is below 80 hex, one by one.
fn low_bytes(bytes: &[u8]) -> bool
    ensures { result ≡ list_all is_low bytes.now }
{
    bytes.iter().all(|b| *b < 0x80)
}

// The same of a text of any length: a longer one is looked at all at once.
fn is_ascii(bytes: &[u8]) -> bool
    ensures { result ≡ list_all is_low bytes.now }
{
    if bytes.len() < block_len() {
        return low_bytes(bytes);
    }
    greatest_byte(bytes) < 0x80
}

// Whether the bytes are well-formed. Most texts are ASCII, which is looked at first.
pub fn well_formed(bytes: &[u8]) -> bool
    ensures { result ≡ UTF8-octets bytes.now }
{
    if is_ascii(bytes) {
        return true;
    }
    let w = after_blocks(bytes);
    w.more == 0
}
