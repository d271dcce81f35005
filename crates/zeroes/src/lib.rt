// Memory that is lent again and again, left all zero.
#![tactic(auto)]

ghost use Rattle.std.specs.Prelude.{◌≡◌, ◌+◌, ◌<◌, min, fold};
ghost use Rattle.std.specs.Int.Bits.{bit_or};
ghost use Rattle.zeroes.specs.Zeroed.{block_size, zeroed};

// How many bytes are looked at before any of them is written.
const BLOCK: usize = 4096;

// The bits that are set in any of the bytes: one number and no branch, so that the loop becomes vector code.
fn bits(bytes: &[u8]) -> u8
    ensures { result ≡ fold bit_or 0 bytes.now }
{
    let mut set: u8 = 0;
    for b in bytes {
        set |= *b;
    }
    set
}

// A block, all zero. It is read first: of memory that is lent again and again most is zero from the call before, and reading is cheaper
// than writing.
fn clear(block: &mut [u8])
    ensures { block.new ≡ zeroed block.old 0 }
{
    if bits(&block[..]) != 0 {
        block.fill(0);
    }
}

// Where the block that begins at a place ends.
fn block_end(len: usize, at: usize) -> usize
    requires { at < len }
    ensures { result ≡ min len (at + block_size) }
{
    at + BLOCK.min(len - at)
}

// The bytes from a place on, all zero: what an exported call owes of the memory it was lent.
// By hand: of what `chunks_mut` lent only the length is known afterwards.
pub fn zero(buf: &mut [u8], from: usize)
    ensures { buf.new ≡ zeroed buf.old from }
{
    let mut at = from;
    while at < buf.len() {
        let end = block_end(buf.len(), at);
        clear(&mut buf[at..end]);
        at = end;
    }
}
