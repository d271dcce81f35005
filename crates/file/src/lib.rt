// Reading a rule file front to back: refusals 3 to 7, and the index of where each record starts. Bytes and position stay two parameters:
// the position moves at each step, and a struct of both would be made, and its fact proved, anew for each call. What fills the index takes
// bytes and index as two slices.
#![tactic(auto)]

ghost use Rattle.std.specs.Prelude.{◌≡◌, ◌+◌, ◌*◌, ◌-◌, ◌≤◌, ◌<◌, length, take, drop, OnOk};
ghost use Rattle.std.proofs.lemmas.List.Edits.{sets};
ghost use Rattle.rules.specs.Limits.{file_limit};
ghost use Rattle.rules.specs.Read.{u8, many, several, well_formed, name, type, node, slot, binding, fetched, comparison, fuzzy_node, path};
ghost use Rattle.rules.specs.Read as Read;
ghost use Rattle.file.specs.Steps.{word_limit, word, step_at, record_of, section_count, limit_of, base_of, count_at, starts, section_of, entries, filled, emptied, index_length, index_of};
ghost use Rattle.file.specs.Refusals.{number, numbered};
ghost use Rattle.file.specs.Sections.{number_of};
ghost use Rattle.file.specs.Tables.{Indexed};

use utf8::well_formed;

// Why a call gives no plan, by its number; the crate engine has the same names.
#[derive(Clone, Copy, PartialEq, Eq)]
pub enum Refusal {
    // The file or the work area, as they were lent.
    FileTooLong = 1,
    WorkTooShort,
    // Reading: the bytes end inside a count or a record; a count above its section's limit; an unknown kind, anchor or op; a name that
    // is not UTF-8; bytes that follow the last section.
    Ends,
    Count,
    Kind,
    NameByte,
    Follows,
    // The whole file: a number past its section's count; a child that is not lower than its parent; a name or disc twice in a type; a
    // type that is too deep; a node that is a child twice; a Const binding of a node that is not constant; a path that may grow too long.
    Number,
    Child,
    Repeat,
    Depth,
    Shared,
    NotConstant,
    Path,
    // The plan is too long, in compiling and in reading.
    PlanTooLong,
    // Reading a plan: it ends early; a byte has no meaning, a path is too long, or bytes are left over; a level breaks a rule.
    PlanEnds,
    PlanByte,
    PlanRule,
    // A level has a constant where its type gives that no bytes.
    Literal,
}

impl Refusal {
    // The number that the caller is told.
    pub fn number(self) -> u8
        ensures { result ≡ number self }
    {
        self as u8
    }
}

// The sections, in the file's order.
#[derive(Clone, Copy, PartialEq, Eq)]
pub enum Section {
    Names,
    Types,
    Predicates,
    Nodes,
    Bindings,
    Hoisted,
    Fetched,
    Constraints,
    Comparisons,
    Levels,
}

impl Section {
    // How many sections a file has before this one.
    pub fn number(self) -> usize
        ensures { result ≡ number_of self }
    {
        self as usize
    }
}

const SECTIONS: [Section; 10] = [
    Section::Names,
    Section::Types,
    Section::Predicates,
    Section::Nodes,
    Section::Bindings,
    Section::Hoisted,
    Section::Fetched,
    Section::Constraints,
    Section::Comparisons,
    Section::Levels,
];

// Limits that the checks need too; the written rules have them in Limits.antt.
pub const NAME_LIMIT: usize = 512;

pub const NODE_LIMIT: usize = 2048;

pub const DEPTH_LIMIT: usize = 32;

// The index has an area for each section: its count, then where each of its records starts. Three further areas hold the depth of each
// type, for each node whether it is constant, and for each name the number of its last binding + 1, or 0 if it has none: the checks
// fill them.
pub const INDEX: usize = 7754;

pub const DEPTHS: usize = 4682;

pub const CONSTANTS: usize = 5194;

pub const LAST_BINDINGS: usize = 7242;

// How many records each section may have. This, BASES and RECORD_SIZES are three tables over the sections: a match of ten cases for each
// would be no plainer.
const LIMITS: [usize; 10] = [
    NAME_LIMIT, 512, 256, NODE_LIMIT, 256, 256, 256, 256, 256, 64,
];

// Where each section's area begins in the index; the last is where they end.
const BASES: [usize; 11] = [
    0, 513, 1026, 1283, 3332, 3589, 3846, 4103, 4360, 4617, DEPTHS,
];

// The bytes of a section's record, where their number is fixed, and those that follow a kind.
const RECORD_SIZES: [usize; 10] = [0, 0, 4, 0, 0, 4, 0, 4, 0, 6];

const TYPE_SIZES: [usize; 4] = [0, 0, 0, 2];

const NODE_SIZES: [usize; 17] = [8, 2, 0, 2, 0, 0, 2, 0, 0, 4, 2, 4, 0, 0, 4, 0, 0];

const SLOT_SIZES: [usize; 6] = [4, 4, 2, 0, 4, 2];

// The two bytes at p, the lower first.
pub fn word_at(file: &[u8], p: usize) -> usize
    requires { p + 2 ≤ length file.now }
    ensures reads { result ≡ word file.now p }
    ensures bounded { result < word_limit }
{
    usize::from(u16::from_le_bytes([file[p], file[p + 1]]))
}

// Where n bytes from p on end, whatever they hold.
pub fn fixed(file: &[u8], n: usize, p: usize) -> Result<usize, Refusal>
    requires { (p ≤ length file.now) × (n ≤ word_limit) }
    ensures { numbered result ≡ step_at file.now (many n u8) p }
{
    if n <= file.len() - p {
        Ok(p + n)
    } else {
        Err(Refusal::Ends)
    }
}

// Where a count byte at p and as many times w bytes end.
pub fn repeated(file: &[u8], w: usize, p: usize) -> Result<usize, Refusal>
    requires { (p ≤ length file.now) × (w ≤ 8) }
    ensures { numbered result ≡ step_at file.now (several (many w u8)) p }
{
    if p >= file.len() {
        return Err(Refusal::Ends);
    }
    let n = usize::from(file[p]);
    fixed(file, n * w, p + 1)
}

// Where the bytes from p to q end, if they are well-formed UTF-8.
fn text_end(file: &[u8], p: usize, q: usize) -> Result<usize, Refusal>
    requires { (p ≤ q) × (q ≤ length file.now) }
    ensures { let bytes = take (q - p) (drop p file.now) in
        numbered result ≡ step_at file.now (well_formed bytes) q }
{
    if well_formed(&file[p..q]) {
        Ok(q)
    } else {
        Err(Refusal::NameByte)
    }
}

// Where the name at `at` ends: its length, then as many bytes. It is read whole before its bytes are judged.
pub fn name_end(file: &[u8], at: usize) -> Result<usize, Refusal>
    requires { at ≤ length file.now }
    ensures { numbered result ≡ step_at file.now name at }
{
    if at >= file.len() {
        return Err(Refusal::Ends);
    }
    let n = usize::from(file[at]);
    let p = at + 1;
    if n > file.len() - p {
        Err(Refusal::Ends)
    } else {
        text_end(file, p, p + n)
    }
}

// Where the type at `at` ends: its kind says how many bytes follow.
pub fn type_end(file: &[u8], at: usize) -> Result<usize, Refusal>
    requires { at ≤ length file.now }
    ensures { numbered result ≡ step_at file.now type at }
{
    if at >= file.len() {
        return Err(Refusal::Ends);
    }
    let k = usize::from(file[at]);
    if k < 4 {
        return fixed(file, TYPE_SIZES[k], at + 1);
    }
    if k == 4 {
        return repeated(file, 4, at + 1);
    }
    if k == 5 {
        return repeated(file, 8, at + 1);
    }
    Err(Refusal::Kind)
}

// Where a Fuzzy node ends that has its name at p: name, distance, anchor.
pub fn fuzzy_end(file: &[u8], p: usize) -> Result<usize, Refusal>
    requires { p ≤ length file.now }
    ensures { numbered result ≡ step_at file.now fuzzy_node p }
{
    if file.len() - p < 4 {
        return Err(Refusal::Ends);
    }
    if file[p + 3] > 1 {
        return Err(Refusal::Kind);
    }
    Ok(p + 4)
}

// Where the node at `at` ends: its kind says how many bytes follow.
pub fn node_end(file: &[u8], at: usize) -> Result<usize, Refusal>
    requires { at ≤ length file.now }
    ensures { numbered result ≡ step_at file.now node at }
{
    if at >= file.len() {
        return Err(Refusal::Ends);
    }
    let k = usize::from(file[at]);
    if k > 16 {
        return Err(Refusal::Kind);
    }
    if k == 2 {
        return repeated(file, 1, at + 1);
    }
    if k == 7 {
        return fuzzy_end(file, at + 1);
    }
    if k == 8 {
        return repeated(file, 4, at + 1);
    }
    fixed(file, NODE_SIZES[k], at + 1)
}

// Where the path at p ends: its field, a count, and as many steps. A plan has a path_end of its own (plan_form), since its grammar
// differs: 31 steps at most.
fn path_end(file: &[u8], p: usize) -> Result<usize, Refusal>
    requires { p ≤ length file.now }
    ensures { numbered result ≡ step_at file.now path p }
{
    if file.len() - p < 2 {
        return Err(Refusal::Ends);
    }
    repeated(file, 4, p + 2)
}

// Where an address, a path and a number end: a fetched entry has them, and a Field slot after its kind.
pub fn fetched_end(file: &[u8], p: usize) -> Result<usize, Refusal>
    requires { p ≤ length file.now }
    ensures { numbered result ≡ step_at file.now fetched p }
{
    if file.len() - p < 2 {
        return Err(Refusal::Ends);
    }
    let q = path_end(file, p + 2)?;
    fixed(file, 2, q)
}

// Where the slot at `at` ends: its kind says how many bytes follow.
pub fn slot_end(file: &[u8], at: usize) -> Result<usize, Refusal>
    requires { at ≤ length file.now }
    ensures { numbered result ≡ step_at file.now slot at }
{
    if at >= file.len() {
        return Err(Refusal::Ends);
    }
    let k = usize::from(file[at]);
    if k > 5 {
        return Err(Refusal::Kind);
    }
    if k == 3 {
        return fetched_end(file, at + 1);
    }
    fixed(file, SLOT_SIZES[k], at + 1)
}

// Where the binding at p ends: a name and a slot.
pub fn binding_end(file: &[u8], p: usize) -> Result<usize, Refusal>
    requires { p ≤ length file.now }
    ensures { numbered result ≡ step_at file.now binding p }
{
    if file.len() - p < 2 {
        return Err(Refusal::Ends);
    }
    slot_end(file, p + 2)
}

// Where the comparison at `at` ends: an op and two nodes.
pub fn comparison_end(file: &[u8], at: usize) -> Result<usize, Refusal>
    requires { at ≤ length file.now }
    ensures { numbered result ≡ step_at file.now comparison at }
{
    if at >= file.len() {
        return Err(Refusal::Ends);
    }
    if file[at] > 3 {
        return Err(Refusal::Kind);
    }
    fixed(file, 4, at + 1)
}

// Where the record of section s at `at` ends.
pub fn record_end(file: &[u8], s: Section, at: usize) -> Result<usize, Refusal>
    requires { at ≤ length file.now }
    ensures { numbered result ≡ step_at file.now (record_of (number_of s)) at }
{
    match s {
        Section::Names => name_end(file, at),
        Section::Types => type_end(file, at),
        Section::Nodes => node_end(file, at),
        Section::Bindings => binding_end(file, at),
        Section::Fetched => fetched_end(file, at),
        Section::Comparisons => comparison_end(file, at),
        _ => fixed(file, RECORD_SIZES[s.number()], at),
    }
}

// Where n records of section s from `at` on end. Each one's start goes into the index, from base on.
pub fn records(
    file: &[u8],
    index: &mut [u16],
    s: Section,
    base: usize,
    n: usize,
    at: usize,
) -> Result<usize, Refusal>
    requires { (at ≤ length file.now) ×
        (length file.now ≤ file_limit) ×
        (base + n ≤ length index.old) }
    ensures reads { numbered result ≡ step_at file.now (many n (record_of (number_of s))) at }
    ensures indexes { index.new ≡ sets index.old base (starts file.now (number_of s) n at) }
{
    let mut p = at;
    for k in 0..n {
        let q = record_end(file, s, p)?;
        index[base + k] = p as u16;
        p = q;
    }
    Ok(p)
}

// How many records section s may have.
fn limit(s: Section) -> usize
    ensures { result ≡ limit_of (number_of s) }
{
    LIMITS[s.number()]
}

// Where the area of section s begins in the index.
pub fn base(s: Section) -> usize
    ensures { result ≡ base_of (number_of s) }
{
    BASES[s.number()]
}

// The count of section s, which stands at p, or the refusal of a count above the section's limit.
pub fn count(file: &[u8], s: Section, p: usize) -> Result<usize, Refusal>
    requires { p ≤ length file.now }
    ensures { numbered result ≡ count_at file.now (number_of s) p }
{
    if file.len() - p < 2 {
        return Err(Refusal::Ends);
    }
    let n = word_at(file, p);
    if n > limit(s) {
        return Err(Refusal::Count);
    }
    Ok(n)
}

// Where section s at p ends: its count and its records. The count and each record's start go into the section's area of the index.
pub fn section_end(file: &[u8], index: &mut [u16], s: Section, p: usize) -> Result<usize, Refusal>
    requires { (p ≤ length file.now) ×
        (length file.now ≤ file_limit) ×
        (index_length ≤ length index.old) }
    ensures reads { numbered result ≡ step_at file.now (section_of (number_of s)) p }
    ensures indexes { index.new ≡ sets index.old (base_of (number_of s)) (entries file.now (number_of s) p) }
{
    let n = count(file, s, p)?;
    let b = base(s);
    index[b] = n as u16;
    records(file, index, s, b + 1, n, p + 2)
}

// Reads the ten sections front to back: the refusal of the first fault, or the file's end. Their counts and records go into the index.
fn ten_sections(file: &[u8], index: &mut [u16]) -> Result<usize, Refusal>
    requires { (length file.now ≤ file_limit) × (index_length ≤ length index.old) }
    ensures reads { numbered result ≡ step_at file.now Read.ten_sections 0 }
    ensures indexes { index.new ≡ filled file.now section_count 0 0 index.old }
{
    let mut p = 0;
    for s in SECTIONS {
        p = section_end(file, index, s, p)?;
    }
    if p < file.len() {
        return Err(Refusal::Follows);
    }
    Ok(p)
}

// Writes the index of ten empty sections: each count is 0.
fn no_records(index: &mut [u16])
    requires { index_length ≤ length index.old }
    ensures { index.new ≡ emptied section_count 0 index.old }
{
    for s in SECTIONS {
        index[base(s)] = 0;
    }
}

// Reads the whole file: the refusal of its first fault, or its end. On acceptance the index finds every record. A file of no bytes is
// ten empty sections.
pub fn read(file: &[u8], index: &mut [u16]) -> Result<usize, Refusal>
    requires { (length file.now ≤ file_limit) × (index_length ≤ length index.old) }
    ensures reads { numbered result ≡ step_at file.now Read.file 0 }
    ensures indexes { index.new ≡ index_of file.now index.old }
    ensures finds { OnOk result (Indexed file.now index.new) }
{
    if file.len() == 0 {
        no_records(index);
        return Ok(0);
    }
    ten_sections(file, index)
}
