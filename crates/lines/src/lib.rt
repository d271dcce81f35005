// The line that program `plan` prints, and hex read back. Digit by digit and by no Display: the line stands in a lent buffer, and clauses
// give its bytes.
#![tactic(auto)]

ghost use Rattle.std.specs.Prelude.{◌≡◌, ◌*◌, ◌≤◌, ◌<◌, length};
ghost use Rattle.std.proofs.lemmas.List.Edits.{sets};
ghost use Rattle.lines.specs.Lines as Lines;

// What is added to a number below ten, and to one of ten and more, to get its digit: 0 to 9, then a to f.
const ZERO: u8 = b'0';

const BEFORE_A: u8 = 87;

// The hex digit of a number, as text.
fn digit(n: u8) -> u8
    requires { n < 16 }
    ensures { result ≡ Lines.digit n }
{
    if n < 10 { ZERO + n } else { BEFORE_A + n }
}

// A plan as program `plan` prints it: two digits for each byte.
fn put_hex(bytes: &[u8], out: &mut [u8])
    requires { length bytes.now * 2 ≤ length out.old }
    ensures { out.new ≡ sets out.old 0 (Lines.hex bytes.now) }
{
    for i in 0..bytes.len() {
        let b = bytes[i];
        out[i * 2] = digit(b / 16);
        out[i * 2 + 1] = digit(b % 16);
    }
}

// A refusal as program `plan` prints it: `refused ` and the number. Gives how many bytes that is.
fn put_refusal(n: u8, out: &mut [u8]) -> usize
    requires { (n < 100) × (10 ≤ length out.old) }
    ensures gives { result ≡ length (Lines.refusal n) }
    ensures leaves { out.new ≡ sets out.old 0 (Lines.refusal n) }
{
    out[..8].copy_from_slice(b"refused ");
    if n < 10 {
        out[8] = ZERO + n;
        return 9;
    }
    out[8] = ZERO + n / 10;
    out[9] = ZERO + n % 10;
    10
}

// An exported call answers a refusal's number × this + the length of what it wrote.
const LENGTHS: u64 = 65536;

// The line for what an exported call answered and left in its output. Gives its length.
pub fn put_line(answer: u64, output: &[u8], out: &mut [u8]) -> usize
    requires { Lines.Printable answer output.now out.old }
    ensures gives { result ≡ length (Lines.line_of answer output.now) }
    ensures leaves { let text = Lines.line_of answer output.now in
        out.new ≡ sets out.old 0 text }
{
    let number = answer / LENGTHS;
    if number == 0 {
        let n = (answer % LENGTHS) as usize;
        put_hex(&output[..n], out);
        return n * 2;
    }
    put_refusal(number as u8, out)
}

// The number that a hex digit stands for.
fn value(c: u8) -> u8
    ensures { result ≡ Lines.value c }
{
    if c <= b'9' {
        return c.saturating_sub(ZERO);
    }
    c.saturating_sub(BEFORE_A)
}

// The byte that two hex digits stand for.
fn byte(h: u8, l: u8) -> u8
    ensures { result ≡ Lines.byte h l }
{
    let n = (value(h) as usize) * 16 + (value(l) as usize);
    (n % 256) as u8
}

// Hex read back, two digits to a byte; a lone last digit is dropped.
pub fn unhex(text: &[u8], out: &mut [u8])
    requires { length text.now ≤ length out.old * 2 }
    ensures { out.new ≡ sets out.old 0 (Lines.unhex text.now) }
{
    for i in 0..text.len() / 2 {
        out[i] = byte(text[i * 2], text[i * 2 + 1]);
    }
}
